use itoa::{Buffer, Integer};
use shx_term::Pieces;

/// AddsText a number in decimal digits.
pub fn add_number<N: Integer, W: Pieces>(number: N, out: &mut W)
    ensures { W.added out.old out.new (N.text number) }
{
    out.add(Buffer::new().format(number).as_bytes());
}
