//! The three texts of a drill, and the words that name them to its run.
ghost use Rattle.std.specs.Prelude.{◌≡◌, ◌≤◌, ◌<◌, ◌++◌, IfOk, OnOk};
ghost use Rattle.shacl_drill.specs.Texts.{data_text, mark_line, named_texts, next_line, node_name};
ghost use Rattle.shacl_drill.specs.Texts.{run_words, script_text, shapes_text};

use itoa::Buffer;
use shx_outside::{Bytes, Name, NamedText};
use shx_term::{Memory, Text};
use std::alloc::Global;

const SHAPES_NAME: &str = "shapes";

const DATA_NAME: &str = "data";

const SCRIPT_NAME: &str = "script";

const PREFIXES: &[u8] = b"@prefix sh: <http://www.w3.org/ns/shacl#> .\n@prefix e: <http://e/> .\n";

const TARGET: &[u8] = b"e:S sh:targetSubjectsOf e:next ; sh:property e:P ; sh:not e:Q .\n";

const NEXT: &[u8] = b"e:P sh:path e:next ; sh:maxCount 1 ; sh:nodeKind sh:IRI .\n";

const MARK: &[u8] = b"e:Q sh:path ( e:next e:mark ) ; sh:hasValue 1 .\n";

/// The words by which a run reads the texts of `named_texts`.
pub fn run_words(alloc: Global) -> Result<Vec<Text>, Memory>
    ensures { IfOk result (λ words. words.items ≡ run_words) }
{
    let mut words = Vec::new(alloc);
    words.push(word(alloc, SHAPES_NAME)?)?;
    words.push(word(alloc, DATA_NAME)?)?;
    words.push(word(alloc, SCRIPT_NAME)?)?;
    Ok(words)
}

fn word(alloc: Global, text: &str) -> Result<Text, Memory>
    ensures { IfOk result (λ word. word ≡ text.now) }
{
    Ok(Text::new(String::from_str(alloc, text)?))
}

/// The texts of a drill of so many nodes. It takes time and memory linear in them.
pub fn named_texts(alloc: Global, size: u64) -> Result<Vec<NamedText>, Memory>
    requires { (1 ≤ size) × (size ≤ 100000) }
    ensures { IfOk result (λ texts. texts.items ≡ named_texts size) }
{
    let mut texts = Vec::new(alloc);
    texts.push(named(alloc, SHAPES_NAME, shapes_text(alloc)?)?)?;
    texts.push(named(alloc, DATA_NAME, data_text(alloc, size)?)?)?;
    texts.push(named(alloc, SCRIPT_NAME, script_text(alloc, size)?)?)?;
    Ok(texts)
}

fn named(alloc: Global, name: &str, text: Vec<u8>) -> Result<NamedText, Memory>
    ensures { IfOk result (λ named. (named.name ≡ name.now) × (named.bytes ≡ text.items)) }
{
    Ok(NamedText {
        name: Name::new(String::from_str(alloc, name)?),
        bytes: Bytes::new(text),
    })
}

fn shapes_text(alloc: Global) -> Result<Vec<u8>, Memory>
    ensures { IfOk result (λ text. text.items ≡ shapes_text) }
{
    let mut text = Vec::from_slice(alloc, PREFIXES)?;
    text.extend_from_slice(TARGET)?;
    text.extend_from_slice(NEXT)?;
    text.extend_from_slice(MARK)?;
    Ok(text)
}

fn data_text(alloc: Global, size: u64) -> Result<Vec<u8>, Memory>
    requires { (1 ≤ size) × (size ≤ 100000) }
    ensures { IfOk result (λ text. text.items ≡ data_text size) }
{
    let mut text = Vec::from_slice(alloc, PREFIXES)?;
    for node in 0..size {
        push_next_line(size, node, &mut text)?;
    }
    Ok(text)
}

fn push_next_line(size: u64, node: u64, text: &mut Vec<u8>) -> Result<(), Memory>
    requires { (node < size) × (size ≤ 100000) }
    ensures { OnOk result (text.new.items ≡ text.old.items ++ next_line size node) }
{
    push_node_name(node, text)?;
    text.extend_from_slice(b" e:next ")?;
    push_node_name((node + 1) % size, text)?;
    text.extend_from_slice(b" .\n")
}

fn script_text(alloc: Global, size: u64) -> Result<Vec<u8>, Memory>
    ensures { IfOk result (λ text. text.items ≡ script_text size) }
{
    let mut text = Vec::new(alloc);
    for node in 0..size {
        push_mark_line(node, &mut text)?;
    }
    text.extend_from_slice(b"count\n")?;
    Ok(text)
}

fn push_mark_line(node: u64, text: &mut Vec<u8>) -> Result<(), Memory>
    ensures { OnOk result (text.new.items ≡ text.old.items ++ mark_line node) }
{
    text.extend_from_slice(b"insert ")?;
    push_node_name(node, text)?;
    text.extend_from_slice(b" e:mark 1 .\n")
}

fn push_node_name(node: u64, text: &mut Vec<u8>) -> Result<(), Memory>
    ensures { OnOk result (text.new.items ≡ text.old.items ++ node_name node) }
{
    text.extend_from_slice(b"e:n")?;
    text.extend_from_slice(Buffer::new().format(node).as_bytes())
}
