//! The table. A triple is written by its letters, `apb`, and a key by those that it asks about, `ap?` for
//! the objects and `?pb` for the subjects. A path has each mark behind what it takes: `^`, `*`, `+` and `?`
//! take the last path, and `/` and `|` all that stand before them; `0` is the alternative of no members, and
//! `1` the sequence of no parts. `-` is for none.

/// Questions, one a line: the triples of a graph; the classes of a node, the instances of a class, whether a
/// node is an instance of a class, where a path leads from a node, or whether two paths are the same; the
/// answer, in the order of terms; and the keys that are looked up. For a test of an instance these are all
/// that `classes` looks up, also where the class is found at once.
pub(super) const QUESTIONS: &str = "== classes and instances
aTb bCc cCd dCb eTe : classes a : bcd : aT? bC? cC? dC?
aTb bCc cCd dCb eTe : classes b : - : bT?
aTb bCc cCd dCb eTe : classes e : e : eT? eC?
aTb aTc bCd cCd dCf eTf gTb : classes a : bcdf : aT? bC? cC? dC? fC?
aTb aTc bCd cCd dCf eTf gTb : classes e : f : eT? fC?
aTb aTc bCd cCd dCf eTf gTb : classes f : - : fT?
- : classes x : - : xT?
aTb bCc cCd dCb eTe : instances d : a : ?Cb ?Cc ?Cd ?Tb ?Tc ?Td
aTb bCc cCd dCb eTe : instances e : e : ?Ce ?Te
aTb aTc bCd cCd dCf eTf gTb : instances b : ag : ?Cb ?Tb
aTb aTc bCd cCd dCf eTf gTb : instances d : ag : ?Cb ?Cc ?Cd ?Tb ?Tc ?Td
aTb aTc bCd cCd dCf eTf gTb : instances f : aeg : ?Cb ?Cc ?Cd ?Cf ?Tb ?Tc ?Td ?Tf
aTb aTc bCd cCd dCf eTf gTb : instances a : - : ?Ca ?Ta
aTb bCc cCd dCb eTe : is a b : yes : aT? bC? cC? dC?
aTb bCc cCd dCb eTe : is a d : yes : aT? bC? cC? dC?
aTb bCc cCd dCb eTe : is a e : no : aT? bC? cC? dC?
aTb bCc cCd dCb eTe : is e e : yes : eT? eC?
aTb aTc bCd cCd dCf eTf gTb : is a b : yes : aT? bC? cC? dC? fC?
aTb aTc bCd cCd dCf eTf gTb : is a f : yes : aT? bC? cC? dC? fC?
aTb aTc bCd cCd dCf eTf gTb : is g c : no : gT? bC? dC? fC?
aTb aTc bCd cCd dCf eTf gTb : is f f : no : fT?
- : is a a : no : aT?
== paths of each form; the runs of the program have more
apb bpc cpa cqd dqe eqc : p b : c : bp?
apb bpc cpa cqd dqe eqc : p^ b : a : ?pb
apb bpc cpa cqd dqe eqc : pq/ b : d : bp? cq?
apb bpc cpa cqd dqe eqc : pq| c : ad : cp? cq?
apb bpc cpd : p* b : bcd : bp? cp? dp?
apb bpc cpa cqd dqe eqc : p+ a : abc : ap? bp? cp?
apb bpc cpd : p? b : bc : bp?
apb bqc cpd dqe : pq/* a : ace : ap? cp? ep? bq? dq?
apb bpc cpa cqd dqe eqc : pq|^ c : be : ?pc ?qc
aTb bCc cCd dCb eTe : TC*/ a : bcd : aT? bC? cC? dC?
== no parts, and no members
apb bpc cpd : 1 b : b : -
apb bpc cpd : 0 b : - : -
apb bpc cpd : 1* b : b : -
apb bpc cpd : 1+ b : b : -
apb bpc cpd : 0* b : b : -
apb bpc cpd : 0+ b : - : -
apb bpc cpd : 0? b : b : -
apb bpc cpd : p1/ b : c : bp?
apb bpc cpd : p0/ b : - : bp?
apb bpc cpd : 0p/^ b : - : ?pb
apb bpc cpd : p0/^ b : - : -
apb bpc cpd : p0| b : c : bp?
== paths that say the same, or not
- : same p p : yes : -
- : same p q : no : -
- : same p^^ p : no : -
- : same pq/ qp/ : no : -
- : same pq| pq/ : no : -
- : same 1 1 : yes : -
- : same 1 0 : no : -
- : same p* p+ : no : -
- : same pq/* pq/* : yes : -
- : same pq/* pp/* : no : -
";
