// The theory of the decoder, with no work at run time: each function's contract is a law over every field, code and run.
#![tactic(auto)]

ghost use Rattle.tree.specs.Areas.{AreasStand};
ghost use Rattle.tree.specs.Checks.{ChecksStand};
ghost use Rattle.tree.specs.Columns.{ColumnsStand};
ghost use Rattle.tree.specs.Decoding.{DecodingStands};
ghost use Rattle.tree.specs.Effects.{EffectsStand};
ghost use Rattle.tree.specs.Join.{JoinsStand};
ghost use Rattle.tree.specs.RowLaws.{RowsStand};
ghost use Rattle.tree.specs.Run.{RunsStand, GoesOn};
ghost use Rattle.tree.specs.Statement.{TreeStands, FromStands, WordsStand};
ghost use Rattle.tree.specs.Worked.{WorkedExample};

// The words that tree and decoder share: which edges are around an edge, and what totals and least values are.
pub fn words_stand()
    ensures law { WordsStand }
{}

// The from-check cost is the least, over symbols that satisfy the check, of the greatest of their costs.
pub fn from_check_stands()
    ensures law { FromStands }
{}

// A column's distances after k rounds are what the cheapest fillings of its unrolled tree of depth k cost.
pub fn tree_stands()
    ensures law { TreeStands }
{}

// A row's joins from either end, read at the opposite of an edge's product, give its from-check cost.
pub fn joins_stand()
    ensures law { JoinsStand }
{}

// The same on vectors of q costs: what is spread, joined and read is what an edge's from-check costs are.
pub fn rows_stand()
    ensures law { RowsStand }
{}

// A sum over a column's edges is the sum over the edges that its entries name.
pub fn columns_stand()
    ensures law { ColumnsStand }
{}

// Where each part's words stand in an area, and when a slip's numbers are the code's.
pub fn areas_stand()
    ensures law { AreasStand }
{}

// A row's sum is 0 exactly if the check along the tree is satisfied at any of its edges.
pub fn checks_stand()
    ensures law { ChecksStand }
{}

// Every granted call has an effect in words of 16 bits.
pub fn effects_stand()
    ensures law { EffectsStand }
{}

// After every run of calls on a frame, read and conclude answer as the unrolled tree says.
pub fn runs_stand()
    ensures law { RunsStand }
{}

// Every run can go on: loads, start and, below the limit, rounds are granted, and tell the rounds made and the checks that fail.
pub fn runs_go_on()
    ensures law { GoesOn }
{}

// Rounds until no row fails end within the limit, and are a run at whose end read and conclude answer as the unrolled tree says.
pub fn decoding_stands()
    ensures law { DecodingStands }
{}

// The worked example over the prime field of 3, and that it is a run.
pub fn worked_example()
    ensures law { WorkedExample }
{}
