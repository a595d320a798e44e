// Physical memory.
ghost use Rattle.std.specs.Prelude.{◌≡◌, ◌++◌, ◌∷◌, ◌+◌, ◌<◌, ◌&&◌, [], map, option_map, IfOk, true, replicate, option_to_list};
ghost use Rattle.phys_mem.specs.Region.{is_inside};
ghost use Rattle.phys_mem.specs.Regions.{rom_region, ram_region, bytes_at, share, copy_of, Becomes};

use crate::bank::{Bank, is_inside, part_of};
use crate::rom::Rom;
use crate::stretch::Stretch;
use pi_base::{OutOfMemory, Seq, Span};
use std::alloc::Global;

/// Physical memory: temporary RAM while it is mapped, RAM, and the volumes.
#[derive(Drop)]
pub struct PhysMem {
    temp: Option<Bank>,
    ram: Bank,
    roms: Seq<Rom>,
}

impl PhysMem {
    ghost use Rattle.phys_mem.specs.Regions.{regions, fixed_regions, rom_regions, temps, ram_region, rom_region, bytes_at, written, share, copy_of, copied, Becomes};

    /// Memory whose temporary RAM and RAM are zero.
    pub fn new(alloc: Global, temp: Span, ram: Span, roms: Seq<Rom>) -> Result<PhysMem, OutOfMemory>
        ensures { IfOk result (λ memory. regions memory
            ≡ record { base = temp.base; bytes = replicate temp.len 0; writable = true }
            ∷ record { base = ram.base; bytes = replicate ram.len 0; writable = true } ∷ map rom_region roms) }
    {
        let temp = Bank::new(alloc, temp)?;
        let ram = Bank::new(alloc, ram)?;
        Ok(PhysMem {
            temp: Some(temp),
            ram,
            roms,
        })
    }

    /// The allocator of the memory.
    pub fn alloc(&self) -> Global {
        self.roms.alloc()
    }

    /// The `n` bytes at an address. None unless one mapped region has all of them.
    pub fn read(&self, at: u64, n: usize) -> Option<Stretch<'_>>
        ensures { result ≡ bytes_at (regions self.now) at n }
    {
        if let Some(temp) = &self.temp {
            if let Some(bytes) = temp.part(at, n) {
                return Some(bytes);
            }
        }
        read_fixed(&self.ram, self.roms.as_slice(), at, n)
    }

    /// The `n` bytes at an address. None unless one volume has all of them.
    pub fn read_rom(&self, at: u64, n: usize) -> Option<&[u8]>
        ensures { option_map (λ bytes. bytes.now) result ≡ bytes_at (rom_regions self.now) at n }
    {
        read_roms(self.roms.as_slice(), at, n)
    }

    // Writes the bytes into temporary RAM, if it has all of their addresses.
    fn put_temp(&mut self, at: u64, bytes: &Stretch<'_>) -> bool
        ensures put { Becomes (written (temps self.old) at bytes.now) (temps self.old) result (temps self.new) }
        ensures ram { self.new.ram ≡ self.old.ram }
        ensures roms { self.new.roms ≡ self.old.roms }
    {
        match &mut self.temp {
            Some(temp) => temp.put(at, bytes),
            None => false,
        }
    }

    /// Writes the bytes at an address. Returns false if no single writable region has all of the addresses; nothing has then changed.
    pub fn write(&mut self, at: u64, bytes: &[u8]) -> bool
        ensures { Becomes (written (regions self.old) at bytes.now) (regions self.old) result (regions self.new) }
    {
        let bytes = Stretch::of(bytes);
        if self.put_temp(at, &bytes) {
            true
        } else {
            self.ram.put(at, &bytes)
        }
    }

    // Whether one region has both ranges.
    fn shares(&self, from: u64, to: u64, n: usize) -> bool
        ensures { result ≡ share (regions self.now) from to n }
    {
        if let Some(temp) = &self.temp {
            if temp.has_both(from, to, n) {
                return true;
            }
        }
        self.ram.has_both(from, to, n) || roms_share(self.roms.as_slice(), from, to, n)
    }

    // Copies into temporary RAM from outside it.
    fn copy_to_temp(&mut self, from: u64, to: u64, n: usize) -> bool
        ensures copied { Becomes (copy_of (temps self.old) to (bytes_at (ram_region self.old.ram ∷ map rom_region self.old.roms) from n))
            (temps self.old) result (temps self.new) }
        ensures ram { self.new.ram ≡ self.old.ram }
        ensures roms { self.new.roms ≡ self.old.roms }
    {
        match &mut self.temp {
            Some(temp) => {
                let source = read_fixed(&self.ram, self.roms.as_slice(), from, n);
                copy_into(temp, to, source)
            }
            None => false,
        }
    }

    // Copies into RAM from outside it.
    fn copy_to_ram(&mut self, from: u64, to: u64, n: usize) -> bool
        ensures copied { Becomes
            (copy_of (ram_region self.old.ram ∷ []) to (bytes_at (temps self.old ++ map rom_region self.old.roms) from n))
            (ram_region self.old.ram ∷ []) result (ram_region self.new.ram ∷ []) }
        ensures temp { self.new.temp ≡ self.old.temp }
        ensures roms { self.new.roms ≡ self.old.roms }
    {
        let source = read_movable(&self.temp, self.roms.as_slice(), from, n);
        copy_into(&mut self.ram, to, source)
    }

    /// Copies the `n` bytes at one address to another. Returns false if no single region has the source, no single writable region has the target, or one
    /// region has both. Nothing has then changed.
    pub fn copy(&mut self, from: u64, to: u64, n: usize) -> bool
        ensures { Becomes (copied (regions self.old) from to n) (regions self.old) result (regions self.new) }
    {
        let is_shared = self.shares(from, to, n);
        if is_shared {
            false
        } else if self.copy_to_temp(from, to, n) {
            true
        } else {
            self.copy_to_ram(from, to, n)
        }
    }

    /// Unmaps temporary RAM: its addresses can no longer be read or written.
    pub fn unmap_temp(&mut self)
        ensures unmapped { regions self.new ≡ fixed_regions self.old }
        ensures others { fixed_regions self.new ≡ fixed_regions self.old }
    {
        self.temp = None;
    }
}

// The `n` bytes at an address, if one volume has all of them.
fn read_roms(roms: &[Rom], at: u64, n: usize) -> Option<&[u8]>
    ensures { option_map (λ bytes. bytes.now) result ≡ bytes_at (map rom_region roms.now) at n }
{
    'volumes: for rom in roms {
        if let Some(bytes) = part_of(rom.base, rom.bytes.as_slice(), at, n) {
            return Some(bytes);
        }
    }
    None
}

// So as a stretch.
fn stretch_of_roms(roms: &[Rom], at: u64, n: usize) -> Option<Stretch<'_>>
    ensures { result ≡ bytes_at (map rom_region roms.now) at n }
{
    match read_roms(roms, at, n) {
        Some(bytes) => Some(Stretch::of(bytes)),
        None => None,
    }
}

// Whether both ranges are among these addresses.
fn has_both(base: u64, len: usize, from: u64, to: u64, n: usize) -> bool
    ensures { result ≡ (is_inside base len from n && is_inside base len to n) }
{
    is_inside(base, len, from, n) && is_inside(base, len, to, n)
}

// Whether one volume has both ranges.
fn roms_share(roms: &[Rom], from: u64, to: u64, n: usize) -> bool
    ensures { result ≡ share (map rom_region roms.now) from to n }
{
    'volumes: for rom in roms {
        if has_both(rom.base, rom.bytes.len(), from, to, n) {
            return true;
        }
    }
    false
}

// The `n` bytes at an address, if RAM or one volume has all of them.
fn read_fixed<'a>(ram: &'a Bank, roms: &'a [Rom], at: u64, n: usize) -> Option<Stretch<'a>>
    ensures { result ≡ bytes_at (ram_region ram.now ∷ map rom_region roms.now) at n }
{
    match ram.part(at, n) {
        Some(bytes) => Some(bytes),
        None => stretch_of_roms(roms, at, n),
    }
}

// The `n` bytes at an address, if temporary RAM or one volume has all of them.
fn read_movable<'a>(
    temp: &'a Option<Bank>,
    roms: &'a [Rom],
    at: u64,
    n: usize,
) -> Option<Stretch<'a>>
    ensures { result
        ≡ bytes_at (option_to_list (option_map ram_region temp.now) ++ map rom_region roms.now) at n }
{
    match temp {
        Some(temp) => read_fixed(temp, roms, at, n),
        None => stretch_of_roms(roms, at, n),
    }
}

// Writes what was read, if anything, at an address.
fn copy_into(bank: &mut Bank, to: u64, source: Option<Stretch<'_>>) -> bool
    ensures { Becomes (copy_of (ram_region bank.old ∷ []) to source.entry) (ram_region bank.old ∷ [])
        result (ram_region bank.new ∷ []) }
{
    match source {
        Some(bytes) => bank.put(to, &bytes),
        None => false,
    }
}
