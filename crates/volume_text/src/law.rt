// The laws of texts.
ghost use Rattle.std.specs.Prelude.{◌≡◌, ℕ, ◌<◌, ◌≤◌, List, None, Ok, Err, All};
ghost use Rattle.fv_volume.specs.{Files.HasWholeName, Reading.IsReadBack};
ghost use Rattle.volume_text.specs.{declared.fault.Cause.Cause, declared.fault.Cause.TheVariants.NoRoom, declared.fault.Fault.Fault};
ghost use Rattle.volume_text.specs.{declared.fault.TextFault.TheVariants.Bad, declared.volume.OpenVolume.OpenVolume};
ghost use Rattle.volume_text.specs.Open.{bytes_held, built_of};
ghost use Rattle.volume_text.specs.Text.{Describes, Says, Leads, IsRefused};

/// A text describes one volume, or has one first line at fault with one cause, and never both.
pub fn one_volume()
    ensures volume { (text a b : List ℕ) → Leads text a → Leads text b → a ≡ b }
    ensures fault { (text : List ℕ) (a b : Fault) → IsRefused text (Bad a) → IsRefused text (Bad b) → a ≡ b }
    ensures apart { (text bytes : List ℕ) (fault : Fault) → Leads text bytes → IsRefused text (Bad fault) → ⊥ }
{}

/// The lines of a text say a volume exactly where they lead to it one by one.
pub fn said_is_read()
    ensures says { (text bytes : List ℕ) → Leads text bytes → Says text bytes }
    ensures leads { (text bytes : List ℕ) → Says text bytes → Leads text bytes }
{}

/// Of a volume that a text describes, what is answered is what can be built of it: its bytes, or what stands against it, at the line of its `end`.
/// Where its files hold more bytes than it has, a line is refused for want of room.
pub fn built_or_refused()
    ensures built { (text : List ℕ) (volume : OpenVolume) (bytes : List ℕ) → Describes text volume → Leads text bytes
        → built_of volume ≡ Ok bytes }
    ensures refused { (text : List ℕ) (volume : OpenVolume) (cause : Cause) → Describes text volume → bytes_held volume.files ≤ volume.len
        → built_of volume ≡ Err cause
        → (line : ℕ) × IsRefused text (Bad (record { line = line; cause = cause })) }
    ensures early { (text : List ℕ) (volume : OpenVolume) → Describes text volume → volume.len < bytes_held volume.files
        → (line : ℕ) × (need : ℕ) × IsRefused text (Bad (record { line = line; cause = NoRoom need })) }
{}

/// A volume without a name that a text describes is read again: the reader finds the files that the lines say, with their names, types and sections.
pub fn again()
    ensures { (text bytes : List ℕ) (said : Says text bytes) → All HasWholeName said.volume.files → said.volume.name ≡ None
        → IsReadBack said.volume.files bytes }
{}
