// The laws of this crate's definitions, as the contract of a function that does nothing: they are proved, or the crate is not.
ghost use Rattle.vectors.specs.Laws.{ColumnSplits, TotalLaws, PermittedLaw, ConstantLaws, SameLaws};

pub fn laws_hold()
    ensures column_splits { ColumnSplits }
    ensures totals { TotalLaws }
    ensures permitted { PermittedLaw }
    ensures constants { ConstantLaws }
    ensures same { SameLaws }
{}
