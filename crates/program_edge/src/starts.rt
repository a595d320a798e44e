// The starts of a printed boot, and which of them have no script.
ghost use Rattle.std.specs.Prelude.{◌≤◌};

use crate::noted_volumes::{NotedVolume, has_start};
use boot_model::Line;
use line_words::first_line;
use trace_reader::start_line;

/// How many starts there were.
#[derive(Clone, Copy)]
pub struct Starts {
    /// All of them.
    pub all: u32,
    /// Those of modules that have no script for the phase.
    pub scriptless: u32,
}

/// The starts that a boot's text shows.
pub fn starts_in(volumes: &[NotedVolume], text: &[u8]) -> Starts
    ensures { result.scriptless ≤ result.all }
{
    let mut starts = Starts {
        all: 0,
        scriptless: 0,
    };
    let mut rest = text;
    'lines: while !rest.is_empty() {
        let (line, after) = first_line(rest);
        rest = after;
        if let Some(start @ (Line::PeiStart { .. } | Line::DxeStart { .. })) = start_line(line) {
            starts = starts.with(has_start(volumes, &start));
        }
    }
    starts
}

impl Starts {
    // With one start more.
    fn with(self, is_scriptless: bool) -> Starts
        requires { self.scriptless ≤ self.all }
        ensures { result.scriptless ≤ result.all }
    {
        let all = self.all.saturating_add(1);
        let scriptless = if is_scriptless {
            self.scriptless.saturating_add(1)
        } else {
            self.scriptless
        };
        Starts { all, scriptless }
    }
}
