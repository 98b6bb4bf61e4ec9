// The laws of this crate's definitions, as the contract of a function that does nothing: they are proved, or the crate is not.
ghost use Rattle.lines.specs.Session.{OneLineLaw, PrintedLaw, WrittenLaw, PreviewLaw, FileLaw};
ghost use Rattle.lines.specs.Blocks.{DeskLaw};

pub fn laws_hold()
    ensures one_line { OneLineLaw }
    ensures printed { PrintedLaw }
    ensures written { WrittenLaw }
    ensures desk { DeskLaw }
    ensures previews { PreviewLaw }
    ensures file { FileLaw }
{}
