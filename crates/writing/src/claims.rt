// The laws of this crate's definitions, as the contract of a function that does nothing: they are proved, or the crate is not.
ghost use Rattle.writing.specs.Answer.{AnswerLineLaw, HeldLineLaw};
ghost use Rattle.writing.specs.ReadBack.{NamedLaw, ReadBackLaw, ReadColumnsLaw, SameTextLaw};

pub fn laws_hold()
    ensures answer_line { AnswerLineLaw }
    ensures held_line { HeldLineLaw }
    ensures named { NamedLaw }
    ensures read_back { ReadBackLaw }
    ensures columns { ReadColumnsLaw }
    ensures same_text { SameTextLaw }
{}
