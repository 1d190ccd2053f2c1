// One text in the place of another.
// Stays, point 6: C lends these lists, longer than what stands in them, and keeps the texts between the calls.
ghost use Rattle.std.specs.Prelude.{◌≡◌, length, set};
ghost use Rattle.edit.specs.inner.Replacing.Exchange.{Exchanging, Exchanged};

use builder::put::put_bytes;
use header::field::zero;

// A text takes the place of the bytes up to `from`. What lies behind them is put aside and follows it, and what is left over is zero.
pub(crate) fn exchange(
    place: usize,
    from: usize,
    strings: usize,
    text: &[u8],
    texts: &mut [u8],
    out: &mut [u8],
) -> usize
    requires { Exchanging place from strings (length text.now) (length texts.old) (length out.old) }
    ensures { Exchanged place from strings text.now texts.old texts.new result }
{
    let behind = strings - from;
    put_bytes(out, 0, &texts[from..strings]);
    let next = put_bytes(texts, place, text);
    let end = put_bytes(texts, next, &out[..behind]);
    if strings <= end {
        return end;
    }
    zero(&mut texts[end..strings]);
    end
}
