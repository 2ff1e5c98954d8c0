use comp_core::Kind;

// The components, in the order of their numbers, from 1 on.
const KINDS: &str = "\
Class Datatype NodeKind MinCount MaxCount MinExclusive MinInclusive MaxExclusive MaxInclusive MinLength \
MaxLength Pattern LanguageIn UniqueLang Equals Disjoint LessThan LessThanOrEquals Not And Or Xone Node \
Property QualifiedMinCount QualifiedMaxCount Closed HasValue In";

/// The name of the component of a number.
pub(super) fn name_of(kind: Kind) -> &'static str {
    let mut number = 0u8;
    for name in KINDS.split_whitespace() {
        number = number.saturating_add(1);
        if number == kind {
            return name;
        }
    }
    "no component"
}
