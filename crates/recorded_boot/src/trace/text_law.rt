// Laws of a text that is compared with a boot's output.
ghost use Rattle.recorded_boot.specs.Putting.{PutsGoOn, PutsPart};

/// What was written without a failure is in the text after what was matched. If a piece failed, the text and the output differ after what was matched.
pub fn text_tells()
    ensures goes { PutsGoOn }
    ensures parts { PutsPart }
{}
