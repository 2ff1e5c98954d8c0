//! What is true of results and target nodes over any graph, as contracts of functions that do nothing.
ghost use Rattle.std.specs.Prelude.{◌≡◌, ◌<◌, ℕ, List, [], length, All, Contains};
ghost use Rattle.shx_term.specs.declared.triple.Triple.{Triple};
ghost use Rattle.graph_view.specs.declared.key.Key.{Key};
ghost use Rattle.graph_view.specs.Graph.{Graph, AllKnown, HasAlso, IsWithout};
ghost use Rattle.graph_view.specs.Key.{Touches};
ghost use Rattle.comp_core.specs.declared.pair.Pair.{Pair};
ghost use Rattle.shape_eval.specs.declared.shape.PlanShape.{PlanShape};
ghost use Rattle.shape_eval.specs.Laws.{IsSamePair, LevelsDoNotMatter, ResultsDependOnReads};
ghost use Rattle.shape_eval.specs.Laws.{NestedAreBelow, NestedAreClosed, NestedAreLower};
ghost use Rattle.shape_eval.specs.Laws.{AnswersReadAreBelow, OwnReadsDependOnThemselves};
ghost use Rattle.shape_eval.specs.Laws.{ReadsAreOwnOrBelow};
ghost use Rattle.shape_eval.specs.Laws.{NestedDependOnReads, NestedReadsAreRead};
ghost use Rattle.shape_eval.specs.Laws.{PairReadsHaveTerms, ResultsHaveTerms, TargetReadsHaveTerms};
ghost use Rattle.shape_eval.specs.Laws.{TargetsDependOnReads};
ghost use Rattle.shape_eval.specs.Plan.{IsKnownPlan, Planned, RefersLower};
ghost use Rattle.shape_eval.specs.Report.{pairs, report};
ghost use Rattle.shape_eval.specs.Results.{pair_reads, results};

use crate::Constraint;
use crate::answering::answers_follow;
use comp_core::Component;
use graph_view::{look_ups_agree, look_ups_give_what_is_held};
use path_eval::paths_depend_on_their_reads;

/// Nothing but its reads matters to a pair: in graphs that agree on what is read in the first, it has the
/// same results and the same reads, through negation, counts, siblings and closures.
pub fn results_depend_on_reads()
    ensures { ResultsDependOnReads }
{
    Constraint::laws();
    paths_depend_on_their_reads();
}

/// Nothing but its reads matters to the target nodes of a shape.
pub fn targets_depend_on_reads()
    ensures { TargetsDependOnReads }
{
    paths_depend_on_their_reads();
    look_ups_agree();
    look_ups_give_what_is_held();
}

/// Results are the same however many levels they are defined by, as long as these are more than the number
/// of the shape.
pub fn levels_do_not_matter()
    ensures { LevelsDoNotMatter }
{
    Constraint::laws();
    paths_depend_on_their_reads();
}

/// A triple that touches none of its reads makes no difference to a pair, whether it is inserted or removed.
pub fn edits_beside_a_pair()
    ensures inserted { (shapes : List PlanShape) → RefersLower shapes → (g h : Graph) (t : Triple)
        → AllKnown g → AllKnown h → IsKnownPlan g.terms shapes → h.terms ≡ g.terms
        → HasAlso g.triples h.triples t → (p : Pair) → p.node < length g.terms
        → ((k : Key) → Contains (pair_reads shapes g p) k → Touches t k → ⊥) → IsSamePair shapes g h p }
    ensures removed { (shapes : List PlanShape) → RefersLower shapes → (g h : Graph) (t : Triple)
        → AllKnown g → AllKnown h → IsKnownPlan g.terms shapes → h.terms ≡ g.terms
        → IsWithout g.triples h.triples t → (p : Pair) → p.node < length g.terms
        → ((k : Key) → Contains (pair_reads shapes g p) k → Touches t k → ⊥) → IsSamePair shapes g h p }
{
    results_depend_on_reads();
}

/// What is read for a nested pair is read for the pair that it is nested in, so no edit touches it and leaves
/// that one out; and nothing but what is read for a pair matters to which pairs are nested in it.
pub fn nested_pairs_are_read()
    ensures read { NestedReadsAreRead }
    ensures depend { NestedDependOnReads }
{
    answers_follow();
    Constraint::laws();
    paths_depend_on_their_reads();
}

/// Nested in a pair are those right below it and what is nested in these, all of them of lower shapes that
/// are evaluated; and what is nested in a nested pair is nested in the pair.
pub fn nested_pairs_stand_below()
    ensures below { NestedAreBelow }
    ensures lower { NestedAreLower }
    ensures closed { NestedAreClosed }
{
    answers_follow();
}

/// What is read for a pair is what is read for it itself, without answers, and what is read for the pairs
/// right below it: those whose answers are read for it. Nothing but what is read for it itself matters to
/// that.
pub fn reads_are_own_or_below()
    ensures parts { ReadsAreOwnOrBelow }
    ensures answers { AnswersReadAreBelow }
    ensures depend { OwnReadsDependOnThemselves }
{
    answers_follow();
    Constraint::laws();
    paths_depend_on_their_reads();
}

/// The numbers in the results of a pair have terms, and their shapes are of the plan.
pub fn results_have_terms()
    ensures { ResultsHaveTerms }
{}

/// The numbers in the keys that are read have terms, of a pair and of the targets of a shape.
pub fn reads_have_terms()
    ensures pairs { PairReadsHaveTerms }
    ensures targets { TargetReadsHaveTerms }
{}

/// A report is empty exactly where each of its pairs conforms: the shape has no result at the focus node.
pub fn a_report_is_empty_where_all_conform()
    ensures empty { (plan : Planned) (g : Graph) → report plan g ≡ []
        → All (λ pair. results plan.shapes g pair ≡ []) (pairs plan g) }
    ensures conform { (plan : Planned) (g : Graph)
        → All (λ pair. results plan.shapes g pair ≡ []) (pairs plan g) → report plan g ≡ [] }
{}
