// A volume whose `end` has not come yet, and how many bytes its files hold.
ghost use Rattle.std.specs.Prelude.{◌≡◌, ◌+◌, nat_le, Ok};
ghost use Rattle.volume_text.specs.{Reading.Gives, Step.new_volume};
ghost use Rattle.volume_text.specs.Open.{bytes_held, room_for, fitting, with_section, with_last_body, with_pad, with_file, with_name};

use crate::fault::{Cause, Stop};
use crate::volume::{OpenVolume, add_file, add_pad, add_section, set_last_body, set_name};
use fv_volume::build::{FileAttributes, NewSection, VolumeForm, VolumeName};
use pi_base::{Guid, Seq};
use std::alloc::Global;
use std::marker::Model;

/// A volume whose `end` has not come yet. The bytes in the bodies of its files are counted as they come, so that no line has to count them all.
#[derive(Drop)]
pub(crate) struct CountedVolume {
    /// The volume.
    volume: OpenVolume,
    /// The bytes in the bodies of its files.
    held: u64,
}

impl Model for CountedVolume {
    ghost use Rattle.std.specs.Prelude.{◌≡◌};
    ghost use Rattle.volume_text.specs.{declared.volume.OpenVolume.OpenVolume, Open.bytes_held};

    ghost Value = { OpenVolume };

    ghost view = { λ c. c.volume };

    ghost invariant = { λ c. c.held ≡ bytes_held c.volume.files };
}

// Whether a volume of a length has room for so many bytes.
fn has_room(held: u64, len: u64) -> bool
    ensures { result ≡ nat_le held len }
{
    held <= len
}

// The bytes that are held with some more, where a volume of a length has room for them.
fn room_for(held: u64, more: u64, len: u64) -> Result<u64, Stop>
    ensures { Gives (λ x. x) result (room_for (held + more) len) }
{
    match held.checked_add(more) {
        Some(all) => {
            if has_room(all, len) {
                Ok(all)
            } else {
                Err(Stop::Fault(Cause::NoRoom { need: all }))
            }
        }
        None => Err(Stop::Fault(Cause::NoRoom { need: u64::MAX })),
    }
}

// A volume with so many bytes more in its files, where it has room for them.
fn fitting(volume: OpenVolume, held: u64, more: u64) -> Result<CountedVolume, Stop>
    requires here { bytes_held volume.files ≡ held + more }
    ensures { Gives (λ x. x) result (fitting volume) }
{
    match room_for(held, more, volume.len) {
        Ok(held) => Ok(CountedVolume { volume, held }),
        Err(stop) => {
            drop(volume);
            Err(stop)
        }
    }
}

/// A volume of this form and length, which has no file yet.
pub(crate) fn opened(alloc: Global, form: VolumeForm, len: u64) -> CountedVolume
    ensures { result ≡ new_volume form len }
{
    CountedVolume {
        volume: OpenVolume {
            form,
            len,
            name: None,
            files: Seq::new(alloc),
        },
        held: 0,
    }
}

impl CountedVolume {
    /// The volume.
    pub(crate) fn volume(&self) -> &OpenVolume
        ensures { result.now ≡ self.now }
    {
        &self.volume
    }

    /// It with one more section in its last file.
    pub(crate) fn with_section(self, section: NewSection) -> Result<CountedVolume, Stop>
        ensures { Gives (λ x. x) result (with_section self section) }
    {
        let CountedVolume { mut volume, held } = self;
        let more = section.body.len() as u64;
        add_section(&mut volume, section)?;
        fitting(volume, held, more)
    }

    /// It with these bytes as the body of its last file.
    pub(crate) fn with_last_body(self, bytes: Seq<u8>) -> Result<CountedVolume, Stop>
        ensures { Gives (λ x. x) result (with_last_body self bytes) }
    {
        let CountedVolume { mut volume, held } = self;
        let more = bytes.len() as u64;
        set_last_body(&mut volume, bytes)?;
        fitting(volume, held, more)
    }

    /// It with one more pad file, whose bytes are made only where there is room for them.
    pub(crate) fn with_pad(self, alloc: Global, len: u64) -> Result<CountedVolume, Stop>
        ensures { Gives (λ x. x) result (with_pad self len) }
    {
        let CountedVolume { mut volume, held } = self;
        match room_for(held, len, volume.len) {
            Ok(held) => {
                add_pad(alloc, &mut volume, len)?;
                Ok(CountedVolume { volume, held })
            }
            Err(stop) => {
                drop(volume);
                Err(stop)
            }
        }
    }

    /// It with one more file, which has no section yet.
    pub(crate) fn with_file(
        self,
        alloc: Global,
        kind: u8,
        name: Guid,
        attributes: FileAttributes,
    ) -> Result<CountedVolume, Stop>
        ensures { Gives (λ x. x) result (Ok (with_file self kind name attributes)) }
    {
        let CountedVolume { mut volume, held } = self;
        add_file(alloc, &mut volume, kind, name, attributes)?;
        Ok(CountedVolume { volume, held })
    }

    /// It with this name.
    pub(crate) fn with_name(self, name: VolumeName) -> Result<CountedVolume, Stop>
        ensures { Gives (λ x. x) result (with_name self name) }
    {
        let CountedVolume { mut volume, held } = self;
        set_name(&mut volume, name)?;
        Ok(CountedVolume { volume, held })
    }
}
