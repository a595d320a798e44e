// Reports on files, plans and images that are refused, and on an output that failed.
use crate::file_kind::{FileKind, kind_of_file};
use crate::heard::Heard;
use crate::image::image_words;
use crate::kept_files::AskedFile;
use crate::plan_mistake::mistake_in;
use crate::program::{Program, text_of};
use boot_model::Line;
use boot_plan::{Plan, read_plan};
use std::alloc::Global;
use trace_reader::read_trace;

// The longest plan, in bytes.
const PLAN_LIMIT: usize = 0x1_0000;

// The printed line that a refusal is.
fn refusal_in(alloc: Global, line: &str) -> Option<Line> {
    let mut text = Vec::new(alloc);
    text.extend_from_slice(line.as_bytes()).ok()?;
    // A printed line ends with a line feed, which is not kept.
    text.push(b'\n').ok()?;
    if text.len() > PLAN_LIMIT {
        return None;
    }
    let mut lines = read_trace(alloc, text.as_slice()).ok()?;
    lines.pop()
}

impl Program {
    /// Reports the file that could not be read.
    pub fn tell_file(&self, rt: &HostRuntime, refused: &Option<AskedFile>, is_long: bool) {
        let program = self.name;
        let Some(AskedFile { name, limit }) = refused else {
            let why = "it could not be read, or is too long; standard output names it";
            return self.put(rt, "a file", why);
        };
        let name = text_of(name.as_slice());
        if !is_long && name.starts_with("-") {
            self.put(
                rt,
                name,
                "no file of this name can be read: a word that begins with - is taken for a file's name, since a command has no options",
            );
        } else if is_long {
            let _ = eprintln!(rt;
                "{program}: {name}: the file is longer than {limit} bytes, its limit"
            );
        } else {
            let _ = eprintln!(rt;
                "{program}: {name}: no file of this name can be read; names of volumes are looked up in the folder in which {program} runs"
            );
        }
    }

    /// Reports what a file is, if it was kept and shows that it is of another kind than is asked for.
    pub fn tell_kind(
        &self,
        rt: &HostRuntime,
        name: &str,
        heard: &Heard,
        asked: Option<FileKind>,
    ) -> Option<()> {
        let kind = kind_of_file(heard.content(name)?)?;
        if asked == Some(kind) {
            return None;
        }
        let (program, is_what) = (self.name, kind.words());
        let _ = eprintln!(rt; "{program}: {name}: this is {is_what}");
        Some(())
    }

    /// Reports the line of a plan that is at fault, if the plan was kept, or what else it is.
    pub fn tell_plan(&self, rt: &HostRuntime, plan: &str, heard: &Heard) -> Option<()> {
        if self
            .tell_kind(rt, plan, heard, Some(FileKind::Plan))
            .is_some()
        {
            return Some(());
        }
        let text = heard.content(plan)?;
        if text.len() > PLAN_LIMIT {
            return None;
        }
        let fault = read_plan(rt.alloc(), text).err()?;
        let line = fault.line;
        let mistake = mistake_in(text, fault)?;
        let program = self.name;
        let _ = eprintln!(rt; "{program}: {plan}: line {line}: {mistake}");
        Some(())
    }

    /// The plan of a name, if it was kept and is one.
    pub fn plan_in(&self, rt: &HostRuntime, plan: &str, heard: &Heard) -> Option<Plan> {
        let text = heard.content(plan)?;
        if text.len() > PLAN_LIMIT {
            return None;
        }
        read_plan(rt.alloc(), text).ok()
    }

    /// Reports the place of a volume's file that is at fault, as the last printed line has it, if the plan was kept.
    pub fn tell_image(&self, rt: &HostRuntime, plan: &str, heard: &Heard) -> Option<()> {
        let Line::RefusedImage { volume, at, cause } = refusal_in(rt.alloc(), heard.last()?)? else {
            return None;
        };
        let plan = self.plan_in(rt, plan, heard)?;
        let volume = plan.volumes.as_slice().get(volume as usize)?;
        let name = text_of(volume.name.as_slice());
        let why = image_words(cause);
        let program = self.name;
        let _ = eprintln!(rt; "{program}: {name}: at {at}: {why}");
        Some(())
    }

    /// Reports the place of a volume's file that is at fault, as the last printed line has it, where a command line names this file alone.
    pub fn tell_volume(&self, rt: &HostRuntime, name: &str, heard: &Heard) -> Option<()> {
        let Line::RefusedImage { at, cause, .. } = refusal_in(rt.alloc(), heard.last()?)? else {
            return None;
        };
        let why = image_words(cause);
        let program = self.name;
        let _ = eprintln!(rt; "{program}: {name}: at {at}: {why}");
        Some(())
    }

    /// Reports that standard output failed.
    pub fn tell_output(&self, rt: &HostRuntime) {
        self.put(
            rt,
            "standard output",
            "it failed, so the text is cut; is a disk full, or a pipe closed?",
        );
    }
}
