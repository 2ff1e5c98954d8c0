use super::letters::{LETTERS_END, key_of, triple_of};
use graph_view::{Key, Reads, keys_of, touches};
use row_tools::{RowFault, all_met, cut, in_three, number};
use shx_term::vocabulary::VOCABULARY_LEN;
use shx_term::{Id, Triple};
use std::alloc::Global;
use std::test::Fail;

fn keys_in(alloc: Global, words: &str) -> Result<Vec<Key>, RowFault> {
    let mut keys = Vec::new(alloc);
    for word in words.split_whitespace() {
        keys.push(key_of(word)?)?;
    }
    Ok(keys)
}

// Triples with their four keys, which they touch, and with keys that they do not touch: no triple touches an
// answer.
const TOUCHES: &str = "\
abc: ab? ?bc a?? ?b? | cb? ac? ?ac ?ba b?? ?c? !ab !bc !ac !ba
aaa: aa? ?aa a?? ?a? | b?? !aa
xqd: xq? ?qd x?? ?q? |
ppp: pp? ?pp p?? ?p? | !pp";

// Whether a triple touches all of the keys or, where `touched` is false, none of them.
fn are_touched(t: &Triple, keys: &[Key], touched: bool) -> bool {
    for key in keys {
        if touches(t, key) != touched {
            return false;
        }
    }
    true
}

fn touches_as_said(alloc: Global, row: &str) -> Result<bool, RowFault> {
    let (triple, rest) = cut(row, ": ")?;
    let (own, others) = cut(rest, " |")?;
    let t = triple_of(triple)?;
    let own = keys_in(alloc, own)?;
    let others = keys_in(alloc, others)?;
    Ok(
        keys_of(&t).as_slice() == own.as_slice()
            && are_touched(&t, &own, true)
            && are_touched(&t, &others, false),
    )
}

#[test]
fn triples_touch_their_keys_alone(rt: HostRuntime) -> Result<(), Fail> {
    all_met(rt.alloc(), TOUCHES, touches_as_said)
}

// How many keys there are: by kind, and then by the numbers; the numbers of letters go up from `x`.
const IN_ORDER: &str = "\
16: xx? xz? yx? yy? ?xx ?xy ?yx ?ab x?? y?? ?x? ?y? !xx !xz !yx !ab";

fn are_ascending(_: Global, row: &str) -> Result<bool, RowFault> {
    let (count, words) = cut(row, ": ")?;
    let mut before = None;
    let mut keys: u32 = 0;
    for word in words.split_whitespace() {
        let key = Some(key_of(word)?);
        if key <= before {
            return Ok(false);
        }
        before = key;
        keys = keys.saturating_add(1);
    }
    Ok(keys == number(count)?)
}

#[test]
fn keys_are_in_order_of_kind_and_numbers(rt: HostRuntime) -> Result<(), Fail> {
    all_met(rt.alloc(), IN_ORDER, are_ascending)
}

// Keys that are added one by one, keys of another set that are added at once, and all in their order.
const READS: &str = "\
| |
?ab| |?ab
?ab ?ab| |?ab
|?ab|?ab
ab?|?p? ab? a??|ab? ?p? a??
ab? ?ab a?? ?a?|?a? ba?|ab? ?ab a?? ?a? ba?
ab? ac? ad? ap? aq? ar? as? at? ?ab ?ac ?ad ?ap ?aq ?ar ?as| |\
ab? ac? ad? ap? aq? ar? as? at? ?ab ?ac ?ad ?ap ?aq ?ar ?as
ab? ac? ad? ap? aq? ar? as? at? ?ab ?ac ?ad ?ap ?aq ?ar ?as ?at| |\
ab? ac? ad? ap? aq? ar? as? at? ?ab ?ac ?ad ?ap ?aq ?ar ?as ?at
ab? ac? ad? ap? aq? ar? as? at? ?ab ?ac ?ad ?ap ?aq ?ar ?as ?at b??| |\
ab? ac? ad? ap? aq? ar? as? at? ?ab ?ac ?ad ?ap ?aq ?ar ?as ?at b??
ab? ac? ad? ap? aq? ar? as? at? ?ab ?ac ?ad ?ap ?aq ?ar ?as ?at b?? ?c? ab? ?at b?? ab?| |\
ab? ac? ad? ap? aq? ar? as? at? ?ab ?ac ?ad ?ap ?aq ?ar ?as ?at b?? ?c?
ab? ac? ad? ap? aq? ar? as? at? ?ab ?ac ?ad ?ap ?aq ?ar|?as ?ab ?at ab? b?? ?c? xx?|\
ab? ac? ad? ap? aq? ar? as? at? ?ab ?ac ?ad ?ap ?aq ?ar ?as ?at b?? ?c? xx?
xx?|ab? ac? ad? ap? aq? ar? as? at? ?ab ?ac ?ad ?ap ?aq ?ar ?as ?at b?? ?c? xx? y??|\
xx? ab? ac? ad? ap? aq? ar? as? at? ?ab ?ac ?ad ?ap ?aq ?ar ?as ?at b?? ?c? y??
a?? b?? c?? d?? p?? q?? r?? s?? t??|?a? ?b? ?c? ?d? ?p? ?q? ?r? ?s? ?t?|\
a?? b?? c?? d?? p?? q?? r?? s?? t?? ?a? ?b? ?c? ?d? ?p? ?q? ?r? ?s? ?t?
!ab !ba !ab| |!ab !ba
ab? !ab ?ab|a?? !ab !aa|ab? !ab ?ab a?? !aa
ab? ac? ad? ap? aq? ar? as? at? ?ab ?ac ?ad ?ap ?aq ?ar ?as !at| |\
ab? ac? ad? ap? aq? ar? as? at? ?ab ?ac ?ad ?ap ?aq ?ar ?as !at
ab? ac? ad? ap? aq? ar? as? at? ?ab ?ac ?ad ?ap ?aq ?ar !as !at|!as ?as !at !sa !ab|\
ab? ac? ad? ap? aq? ar? as? at? ?ab ?ac ?ad ?ap ?aq ?ar !as !at ?as !sa !ab
!aa !ab !ac !ad !ap !aq !ar !as !at|!ba !bb !bc !bd !bp !bq !br !bs !bt !aa|\
!aa !ab !ac !ad !ap !aq !ar !as !at !ba !bb !bc !bd !bp !bq !br !bs !bt";

fn add_words(reads: &mut Reads, words: &str) -> Result<(), RowFault> {
    for word in words.split_whitespace() {
        reads.add(key_of(word)?)?;
    }
    Ok(())
}

// Whether a triple touches a read key as it touches one of these.
fn is_touched_alike(reads: &Reads, keys: &[Key], t: &Triple) -> bool {
    for key in keys {
        if touches(t, key) {
            return reads.is_touched_by(t);
        }
    }
    !reads.is_touched_by(t)
}

// Whether the keys of a triple are read as they are among these.
fn are_read_alike(reads: &Reads, keys: &[Key], t: &Triple) -> bool {
    for key in &keys_of(t) {
        if reads.has(key) != keys.contains(key) {
            return false;
        }
    }
    true
}

// The triples of a subject and predicate, over all letters, and the answer of these numbers.
fn are_told_alike(reads: &Reads, keys: &[Key], s: Id, p: Id) -> bool {
    let answer = Key::Answer(s, p);
    if reads.has(&answer) != keys.contains(&answer) {
        return false;
    }
    for o in VOCABULARY_LEN..LETTERS_END {
        let t = Triple { s, p, o };
        if !is_touched_alike(reads, keys, &t) || !are_read_alike(reads, keys, &t) {
            return false;
        }
    }
    true
}

// Whether the key at each place is the one that is due.
fn has_places(reads: &Reads, keys: &[Key]) -> bool {
    for (at, key) in keys.iter().enumerate() {
        if at >= reads.len() || reads.key_at(at) != key {
            return false;
        }
    }
    reads.len() == keys.len() && reads.keys() == keys
}

// Whether the reads are these keys in this order, and tell of each triple over all letters as these keys do.
fn are_reads_of(reads: &Reads, keys: &[Key]) -> bool {
    for s in VOCABULARY_LEN..LETTERS_END {
        for p in VOCABULARY_LEN..LETTERS_END {
            if !are_told_alike(reads, keys, s, p) {
                return false;
            }
        }
    }
    has_places(reads, keys)
}

fn fill(alloc: Global, reads: &mut Reads, first: &str, more: &str) -> Result<(), RowFault> {
    let mut other = Reads::new(alloc);
    add_words(&mut other, more)?;
    add_words(reads, first)?;
    Ok(reads.add_all(&other)?)
}

// Whether a set that is filled has the keys that are due, in their order.
fn is_filled(alloc: Global, reads: &mut Reads, row: &str) -> Result<bool, RowFault> {
    let (first, more, due) = in_three(row, "|")?;
    fill(alloc, reads, first, more)?;
    let due = keys_in(alloc, due)?;
    Ok(are_reads_of(reads, &due))
}

// Whether a set has the keys that are due, is empty once it is cleared, and can be filled again.
fn is_filled_twice(alloc: Global, row: &str) -> Result<bool, RowFault> {
    let mut reads = Reads::new(alloc);
    if !is_filled(alloc, &mut reads, row)? {
        return Ok(false);
    }
    reads.clear();
    Ok(are_reads_of(&reads, &[]) && is_filled(alloc, &mut reads, row)?)
}

#[test]
fn reads_hold_each_key_once_in_order_of_addition(rt: HostRuntime) -> Result<(), Fail> {
    all_met(rt.alloc(), READS, is_filled_twice)
}
