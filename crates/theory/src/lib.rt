// The theory of hearing, ranks and labels, over the definitions of the subject in specs/.
// There is no code here: each function stands for the theorem that its contract names, so that the crate is proved only if the theorem is.
#![tactic(auto)]

ghost use Rattle.theory.specs.Theorems.{HearingDecided, HearingReflexive, HearingTransitive, OnAChain, LabelsDecided, ListsTold, Cover, HighestShared, MinimalIn, MinimalOut};
ghost use Rattle.theory.specs.Examples.{Examples};
ghost use Rattle.theory.specs.Changes.{ChangesSound, PairFrame, UnpairFrame, PairArea, DropFrame, EnrolFrame, EnrolArea, RankFrame, PairLocal, UnpairLocal, DropLocal, EnrolLocal, RankLocal};
ghost use Rattle.theory.specs.Rings.{RingsKeptOut};
ghost use Rattle.theory.specs.Walks.{LabelAtAnEnd, HighestListed, ReachedByRows, RowByCover, RowByWalk, HiddenTurned, WalkDone, NextRow, ReachedByTables};
ghost use Rattle.theory.specs.Turns.{Relabelled, FrameSettled, RowBySets, PairFull};
ghost use Rattle.theory.specs.Sizes.{NumberTold, TotalCounted, ChangedCounted, TotalByRows, ChangedByRows, LabelsBounded};
ghost use Rattle.theory.specs.Whole.{TallyOfChanges, PairKept, UnpairKept, EnrolKept, DropKept, RankKept, MadeNew};

// ---- Hearing.

// A test decides hearing, with rings too.
pub fn hearing_decided() -> u8
    ensures { HearingDecided }
{
    0
}

// A unit hears itself.
pub fn hearing_reflexive() -> u8
    ensures { HearingReflexive }
{
    0
}

// What hears x hears what x hears.
pub fn hearing_transitive() -> u8
    ensures { HearingTransitive }
{
    0
}

// A unit stands on some chain from u to v exactly when it hears u and v hears it.
pub fn on_a_chain() -> u8
    ensures { OnAChain }
{
    0
}

// ---- Labels.

// A test decides the labels.
pub fn labels_decided() -> u8
    ensures { LabelsDecided }
{
    0
}

// The four lists of a unit hold exactly what the definitions give, ascending in rank.
pub fn lists_told() -> u8
    ensures { ListsTold }
{
    0
}

// Two lists share a unit exactly when the one unit hears the other.
pub fn cover() -> u8
    ensures { Cover }
{
    0
}

// The highest unit that they share is the highest on any chain between.
pub fn highest_shared() -> u8
    ensures { HighestShared }
{
    0
}

// No in-label can be struck.
pub fn minimal_in() -> u8
    ensures { MinimalIn }
{
    0
}

// No out-label can be struck.
pub fn minimal_out() -> u8
    ensures { MinimalOut }
{
    0
}

// Small maps worked out.
pub fn examples() -> u8
    ensures { Examples }
{
    0
}

// ---- What a change leaves.

// A change leaves a sound map and an order of it.
pub fn changes_sound() -> u8
    ensures { ChangesSound }
{
    0
}

// Which changes make a ring.
pub fn rings_kept_out() -> u8
    ensures { RingsKeptOut }
{
    0
}

// An added pairing changes labels only between what its first unit hears and what hears its second.
pub fn pair_frame() -> u8
    ensures { PairFrame }
{
    0
}

// And so does one that is taken away.
pub fn unpair_frame() -> u8
    ensures { UnpairFrame }
{
    0
}

// These units are the same before and after.
pub fn pair_area() -> u8
    ensures { PairArea }
{
    0
}

// A dropped unit changes labels only between what it hears and what hears it.
pub fn drop_frame() -> u8
    ensures { DropFrame }
{
    0
}

// And so does an enrolled unit.
pub fn enrol_frame() -> u8
    ensures { EnrolFrame }
{
    0
}

// What an enrolled unit hears and what hears it, by hearing before.
pub fn enrol_area() -> u8
    ensures { EnrolArea }
{
    0
}

// And so does a unit that is moved in the order.
pub fn rank_frame() -> u8
    ensures { RankFrame }
{
    0
}

// The lists that an added pairing leaves.
pub fn pair_local() -> u8
    ensures { PairLocal }
{
    0
}

// The lists that a pairing taken away leaves.
pub fn unpair_local() -> u8
    ensures { UnpairLocal }
{
    0
}

// The lists that a dropped unit leaves.
pub fn drop_local() -> u8
    ensures { DropLocal }
{
    0
}

// The lists that an enrolled unit leaves.
pub fn enrol_local() -> u8
    ensures { EnrolLocal }
{
    0
}

// The lists that a moved unit leaves.
pub fn rank_local() -> u8
    ensures { RankLocal }
{
    0
}

// ---- Rows found by walks.

// A label is the highest unit between, at one end.
pub fn label_at_an_end() -> u8
    ensures { LabelAtAnEnd }
{
    0
}

// There is a highest unit between, and both lists have it.
pub fn highest_listed() -> u8
    ensures { HighestListed }
{
    0
}

// What hears a unit, by rows.
pub fn reached_by_rows() -> u8
    ensures { ReachedByRows }
{
    0
}

// A row is what hears a unit without what it covers.
pub fn row_by_cover() -> u8
    ensures { RowByCover }
{
    0
}

// A row by a walk with the covered units hidden.
pub fn row_by_walk() -> u8
    ensures { RowByWalk }
{
    0
}

// Hidden and turned, in either order.
pub fn hidden_turned() -> u8
    ensures { HiddenTurned }
{
    0
}

// When a walk has all that it can reach.
pub fn walk_done() -> u8
    ensures { WalkDone }
{
    0
}

// The next row from the rows of higher units.
pub fn next_row() -> u8
    ensures { NextRow }
{
    0
}

// What hears a unit, by tables of rows.
pub fn reached_by_tables() -> u8
    ensures { ReachedByTables }
{
    0
}

// ---- The routine that makes rows new.

// The routine makes all rows right.
pub fn relabelled() -> u8
    ensures { Relabelled }
{
    0
}

// Rows outside the two sets of a change are right after it.
pub fn frame_settled() -> u8
    ensures { FrameSettled }
{
    0
}

// A row with no walk, where all of the one set hear all of the other.
pub fn row_by_sets() -> u8
    ensures { RowBySets }
{
    0
}

// So it is after a pairing is added.
pub fn pair_full() -> u8
    ensures { PairFull }
{
    0
}

// ---- Counts.

// A number of labels is the only one.
pub fn number_told() -> u8
    ensures { NumberTold }
{
    0
}

// The total is the number of labels.
pub fn total_counted() -> u8
    ensures { TotalCounted }
{
    0
}

// The number of changed labels is what its name says.
pub fn changed_counted() -> u8
    ensures { ChangedCounted }
{
    0
}

// The total by rows.
pub fn total_by_rows() -> u8
    ensures { TotalByRows }
{
    0
}

// The number of changed labels by rows.
pub fn changed_by_rows() -> u8
    ensures { ChangedByRows }
{
    0
}

// Without rings there are at most 32385 labels.
pub fn labels_bounded() -> u8
    ensures { LabelsBounded }
{
    0
}

// ---- Each change with the routine after it.

// What the routine tallies.
pub fn tally_of_changes() -> u8
    ensures { TallyOfChanges }
{
    0
}

// A pairing added.
pub fn pair_kept() -> u8
    ensures { PairKept }
{
    0
}

// A pairing taken away.
pub fn unpair_kept() -> u8
    ensures { UnpairKept }
{
    0
}

// A unit enrolled.
pub fn enrol_kept() -> u8
    ensures { EnrolKept }
{
    0
}

// A unit dropped.
pub fn drop_kept() -> u8
    ensures { DropKept }
{
    0
}

// A unit moved.
pub fn rank_kept() -> u8
    ensures { RankKept }
{
    0
}

// All rows made new.
pub fn made_new() -> u8
    ensures { MadeNew }
{
    0
}
