// Which program this is.
use crate::program::Program;
use std::io::{self, ErrorKind};
use std::{env, fs};

/// The version of both programs; CHANGELOG.md has it.
const VERSION: &str = "0.1";

// The text of the package's file with the commit and the kit, found by the program's own path.
fn proved_text(rt: &HostRuntime) -> io::Result<String> {
    let program = env::current_exe(rt)?;
    let path = match program.parent() {
        Some(folder) => format!(in rt.alloc(); "{}/../share/piboot/PROVED", folder.as_str())?,
        None => return Err(io::Error::from(ErrorKind::NotFound)),
    };
    fs::read_to_string(rt, path.as_str())
}

impl Program {
    // Prints the version, and the commit and the kit if the program is part of a package.
    pub(crate) fn put_version(&self, rt: &HostRuntime) {
        let name = self.name;
        let _ = eprintln!(rt; "{name} {VERSION}");
        match proved_text(rt) {
            Ok(text) => {
                for line in text.lines().take(2) {
                    let _ = eprintln!(rt; "{line}");
                }
            }
            Err(_) => {
                let _ = eprintln!(rt;
                    "it is of no package: in its checkout `git log -1` and `rt version` tell the commit and the kit"
                );
            }
        }
    }
}
