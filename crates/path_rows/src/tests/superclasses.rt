//! Whether a node is an instance, by what was found for others, one question a line: a graph by its name;
//! what is asked before, `ab` for a node a and a class b, or `-`; the question, in the same way, and its
//! answer; the keys that are read, and those of them that are looked up for it, since the others are known
//! from before. Nodes and keys are written as in `rows.rt`.
ghost use Rattle.std.specs.Prelude.{IfOk};
ghost use Rattle.graph_view.specs.ListGraph.{plain_graph};
ghost use Rattle.path_eval.specs.Superclasses.{AreSuperclassesOf};

use super::cells::{graph, is_said, keys, number};
use due_view::DueView;
use graph_view::{GraphView, ListGraph, Notes, Reads, Unnoted};
use path_eval::Superclasses;
use row_tools::{RowFault, all_met, cut, in_four};
use std::alloc::Global;
use std::test::Fail;

const CLIQUE: &str =
    "gTb hTc iTd jTe kTf bCc bCd bCe bCf cCb cCd cCe cCf dCb dCc dCe dCf eCb eCc eCd eCf \
fCb fCc fCd fCe";

const FAN: &str = "aTb kTc lTd mTe nTf oTg bCc bCd bCe bCf bCg cCh dCh eCh fCh gCh hCi iCj";

const SIX: &str = "aTb aTc aTd aTe aTf aTg iTb iTc iTd iTe iTf jTb kTb kTc kTd kTe bCh";

const QUESTIONS: &str = "== each class is above each other
clique : - : gf yes : gT? bC? cC? dC? eC? fC? / gT? bC? cC? dC? eC? fC?
clique : - : gg no : gT? bC? cC? dC? eC? fC? / gT? bC? cC? dC? eC? fC?
clique : gb : gc yes : gT? bC? cC? dC? eC? fC? / gT?
clique : gb : hb yes : hT? bC? cC? dC? eC? fC? / hT? cC?
clique : gb hb : if yes : iT? bC? cC? dC? eC? fC? / iT? dC?
clique : gb hb if : ja no : jT? bC? cC? dC? eC? fC? / jT? eC?
clique : gb hb if ja : kk no : kT? bC? cC? dC? eC? fC? / kT? fC?
clique : kf : gf yes : gT? bC? cC? dC? eC? fC? / gT? bC?
== a chain that meets a known class in its middle
chain : - : af yes : aT? bC? cC? dC? eC? fC? / aT? bC? cC? dC? eC? fC?
chain : gd : af yes : aT? bC? cC? dC? eC? fC? / aT? bC? cC?
chain : gd : aa no : aT? bC? cC? dC? eC? fC? / aT? bC? cC?
chain : gd ab : ac yes : aT? bC? cC? dC? eC? fC? / aT?
chain : ab : gb no : gT? dC? eC? fC? / gT? dC? eC? fC?
== two ways to one class
diamond : - : af yes : aT? bC? cC? dC? eC? fC? / aT? bC? cC? dC? eC? fC?
diamond : gc : ad yes : aT? bC? cC? dC? eC? fC? / aT? bC? dC?
diamond : he : af yes : aT? bC? cC? dC? eC? fC? / aT? bC? cC? dC?
diamond : gc ib : af yes : aT? bC? cC? dC? eC? fC? / aT? bC?
diamond : gc : ic no : iT? dC? eC? fC? / iT? dC? eC? fC?
diamond : ab : hh no : hT? eC? fC? / hT? eC? fC?
== known classes with the same above them: the fifth is looked up
fan : - : aj yes : aT? bC? cC? dC? eC? fC? gC? hC? iC? jC? / aT? bC? cC? dC? eC? fC? gC? hC? iC? jC?
fan : kc ld me nf : ag yes : aT? bC? cC? dC? eC? fC? gC? hC? iC? jC? / aT? bC? gC?
fan : kc ld me nf og : aj yes : aT? bC? cC? dC? eC? fC? gC? hC? iC? jC? / aT? bC? gC?
== a node of many types that is asked about again and again
six : - : ab yes : aT? bC? cC? dC? eC? fC? gC? hC? / aT? bC? cC? dC? eC? fC? gC? hC?
six : ab ac ad : ah yes : aT? bC? cC? dC? eC? fC? gC? hC? / aT?
six : ab ac ad ae : af yes : aT? bC? cC? dC? eC? fC? gC? hC? / aT?
six : ab ac ad ae af : ag yes : aT? bC? cC? dC? eC? fC? gC? hC? / -
six : ab ac ad ae af : ah yes : aT? bC? cC? dC? eC? fC? gC? hC? / -
six : ab ac ad ae af : ai no : aT? bC? cC? dC? eC? fC? gC? hC? / -
six : ab ac ad ae af ag : aa no : aT? bC? cC? dC? eC? fC? gC? hC? / -
== and then about another
six : ab ac ad ae af : ig no : iT? bC? cC? dC? eC? fC? hC? / iT?
six : ab ac ad ae af ib : ag yes : aT? bC? cC? dC? eC? fC? gC? hC? / aT?
six : ab ac ad ae ib af ag : ag yes : aT? bC? cC? dC? eC? fC? gC? hC? / aT?
six : ab ac ad ae af ib ic id ie if : ig no : iT? bC? cC? dC? eC? fC? hC? / -
six : ab ac ad ae af jb : jc no : jT? bC? hC? / jT?
six : ab ac ad ae af jb : ag yes : aT? bC? cC? dC? eC? fC? gC? hC? / -
six : kb kb kb kb kb kb : kf no : kT? bC? cC? dC? eC? hC? / kT?
";

fn triples_of(name: &str) -> Result<&'static str, RowFault> {
    match name {
        "clique" => Ok(CLIQUE),
        "chain" => Ok("aTb gTd bCc cCd dCe eCf"),
        "diamond" => Ok("aTb gTc hTe iTd bCc bCd cCe dCe eCf"),
        "fan" => Ok(FAN),
        "six" => Ok(SIX),
        _ => Err(RowFault::Unread),
    }
}

// Whether a node is an instance of a class, as `ab` asks it.
fn ask<V: GraphView, N: Notes>(
    alloc: Global,
    view: &V,
    known: &mut Superclasses,
    word: &str,
    reads: &mut N,
) -> Result<bool, RowFault>
    requires known { AreSuperclassesOf known.old (V.graph view.now) }
    ensures known { AreSuperclassesOf known.new (V.graph view.now) }
{
    let [tested, class] = word.as_bytes() else {
        return Err(RowFault::Unread);
    };
    let (tested, class) = (number(*tested)?, number(*class)?);
    Ok(known.is_instance(alloc, view, tested, class, reads)?)
}

// What is known once these were asked.
fn asked(alloc: Global, graph: &ListGraph, words: &str) -> Result<Superclasses, RowFault>
    ensures { IfOk result (λ known. AreSuperclassesOf known (plain_graph graph.now)) }
{
    let mut known = Superclasses::new(alloc);
    for word in words.trim_start_matches('-').split_whitespace() {
        ask(alloc, graph, &mut known, word, &mut Unnoted::new(alloc))?;
    }
    Ok(known)
}

// Whether a question is answered with these look-ups alone; `reads` takes what is read for it.
fn is_answered(
    alloc: Global,
    graph: &ListGraph,
    before: &str,
    question: &str,
    looked: &Reads,
    reads: &mut Reads,
) -> Result<bool, RowFault> {
    let (word, answer) = cut(question, " ")?;
    let mut known = asked(alloc, graph, before)?;
    let view = DueView::new(graph, looked);
    let is = ask(alloc, &view, &mut known, word, reads)?;
    Ok(is_said(is, answer))
}

// Whether the row's question has its answer, reads its keys, and looks up none but those that it may.
fn is_as_said(alloc: Global, row: &str) -> Result<bool, RowFault> {
    let (name, before, question, read) = in_four(row, " : ")?;
    let graph = graph(alloc, triples_of(name)?)?;
    let (read, looked) = cut(read, " / ")?;
    let (due, looked) = (keys(alloc, read)?, keys(alloc, looked)?);
    let mut reads = Reads::new(alloc);
    let told = is_answered(alloc, &graph, before, question, &looked, &mut reads);
    Ok(told == Ok(true) && DueView::new(&graph, &due).are_read(&reads))
}

#[test]
fn instances_by_what_is_known_are_as_said(rt: HostRuntime) -> Result<(), Fail> {
    all_met(rt.alloc(), QUESTIONS, is_as_said)
}
