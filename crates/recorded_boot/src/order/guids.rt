//! The file names of a catalogue are GUIDs.
ghost use Rattle.recorded_boot.specs.Named.{AreGuids};
ghost use Rattle.line_words.specs.PrintedWords.{IsGuid};

use mod_catalog::Catalog;
use pi_base::Guid;

// A GUID is sixteen bytes.
fn is_guid(name: Guid)
    ensures { IsGuid name }
{}

/// The file name of each module of a catalogue has sixteen bytes, so a start line with it can be read.
pub fn names_are_guids(catalog: &Catalog)
    ensures { AreGuids catalog.now }
{
    'modules: for member in catalog.modules.as_slice() {
        is_guid(member.name);
    }
}
