// The laws of reading built volumes, and of reading a text back.
ghost use Rattle.std.specs.Prelude.{◌≡◌, ◌≤◌, ◌<◌, ◌^◌, ℕ, List, Option, None, Ok, All, true};
ghost use Rattle.pi_base.specs.Field.{AreBytes};
ghost use Rattle.fv_volume.specs.{declared.build.new_file.NewFile.NewFile, declared.build.volume.TheConstants.MOST_LEN};
ghost use Rattle.fv_volume.specs.{declared.build.volume_header.VolumeForm.VolumeForm, declared.build.volume_name.VolumeName.VolumeName};
ghost use Rattle.fv_volume.specs.{Files.HasWholeName, Header.is_header_length, Front.is_placed};
ghost use Rattle.fv_volume.specs.{Building.volume_bytes, Building.volume_fault, Reading.IsWhole, Reading.IsReadAs};
ghost use Rattle.volume_text.specs.{declared.fault.Fault.Fault, declared.fault.TextFault.TheVariants.Bad};
ghost use Rattle.volume_text.specs.{declared.volume.OpenVolume.OpenVolume, Open.built_of};
ghost use Rattle.volume_text.specs.Text.{Says, Leads, IsRefused};
ghost use Rattle.volume_print.specs.Description.{IsTextOf};
ghost use Rattle.volume_again.specs.Made.{CannotBeBuilt, IsMadeAgain, SaysItself};

use volume_text::{built_or_refused, one_volume, said_is_read};

/// The bytes of a volume with a name at any place or without, against which nothing stands, are read as a volume of all of them with this name and these
/// files, pads aside: each at its place, with its type, name, attributes and body, and with its sections where `read_sections` takes them. A GUID has
/// 16 bytes, as each that a program holds.
pub fn built_again()
    ensures { (form : VolumeForm) (name : Option VolumeName) (files : List NewFile) (len : ℕ)
        → form.attributes < 2 ^ 32 → is_header_length form.header_len ≡ true → is_placed form.header_len name ≡ true → len ≤ MOST_LEN
        → IsWhole name → All HasWholeName files → volume_fault form name files len ≡ None
        → IsReadAs form name files len (volume_bytes form name files len) }
{}

/// So are the bytes that a volume of a text has at its `end`.
pub fn made_again()
    ensures { (volume : OpenVolume) (bytes : List ℕ) → IsWhole volume.name → All HasWholeName volume.files → built_of volume ≡ Ok bytes
        → IsReadAs volume.form volume.name volume.files volume.len bytes }
{}

/// The volume that a text describes, with a name or without, is read again: the reader finds the name and the files that the lines say,
/// pads aside, each where it was laid. Each GUID that a line says has its 16 bytes.
pub fn text_again()
    ensures { (text bytes : List ℕ) (said : Says text bytes)
        → IsReadAs said.volume.form said.volume.name said.volume.files said.volume.len bytes }
{}

/// The text of a volume of up to 64 MiB, with a name or without, says a volume of the same form, length and name with the same files, each behind
/// the pads that bring it to its place, with the names and the bodies that stand there, and leads to its bytes where nothing stands against that volume. Files are the same by their types, names,
/// attributes and sections, or their bodies; a volume that stands inside as text is there again as the one that is made of its text, of the same length.
pub fn read_again()
    ensures { (bytes text : List ℕ) (told : IsTextOf bytes text) → AreBytes bytes → told.volume.len ≤ MOST_LEN
        → SaysItself bytes text told }
{
    said_is_read();
    built_or_refused();
}

/// The volume that is made of such a text is found again by a reader: its form, its length, its name and the place of that, and its files, each at its
/// place. In front of them stand pads with the names and the bodies that stood there, at the same offset.
pub fn made_of_its_text()
    ensures { (bytes text again : List ℕ) (told : IsTextOf bytes text) → AreBytes bytes → told.volume.len ≤ MOST_LEN
        → Leads text again → IsMadeAgain bytes text told again }
{
    read_again();
    built_or_refused();
}

/// Such a text is refused only where the volume that it says cannot be built, as for want of room.
pub fn refused_for_room()
    ensures { (bytes text : List ℕ) (fault : Fault) (told : IsTextOf bytes text) → AreBytes bytes → told.volume.len ≤ MOST_LEN
        → IsRefused text (Bad fault) → CannotBeBuilt bytes text told }
{
    read_again();
    one_volume();
}
