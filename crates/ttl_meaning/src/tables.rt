//! The tables of a document, from the map and the set that a reader keeps.
ghost use Rattle.std.specs.Prelude.{IfOk};
ghost use Rattle.ttl_meaning.specs.inner.DocumentOf.{AreLabels, ArePrefixes};

use crate::document::Prefix;
use shx_term::{IriText, Label, Memory, Text};
use std::alloc::Global;
use std::collections::{BTreeMap, BTreeSet};

// The prefixes of a map, sorted.
pub(crate) fn prefix_table(
    alloc: Global,
    prefixes: BTreeMap<String, IriText>,
) -> Result<Vec<Prefix>, Memory>
    ensures { IfOk result (λ table. ArePrefixes prefixes table.items) }
{
    let mut table = Vec::with_capacity(alloc, prefixes.len())?;
    for (name, iri) in prefixes {
        table.push(Prefix {
            name: Text::new(name),
            iri,
        })?;
    }
    Ok(table)
}

// The labels of a set, sorted.
pub(crate) fn label_table(alloc: Global, labels: BTreeSet<String>) -> Result<Vec<Label>, Memory>
    ensures { IfOk result (λ table. AreLabels labels table.items) }
{
    let mut table = Vec::with_capacity(alloc, labels.len())?;
    for label in labels {
        table.push(Label::new(label))?;
    }
    Ok(table)
}
