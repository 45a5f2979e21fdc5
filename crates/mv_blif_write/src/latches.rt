ghost use Rattle.std.specs.Prelude.{◌≡◌, ◌++◌, ◌∷◌, [], decimal, length, IsTrue};
ghost use Rattle.std.specs.List.{flat_map};
ghost use Rattle.mv_page.specs.Page.{AddsPiece, paged};
ghost use Rattle.mv_lex.specs.Text.{spaced, line_text};
ghost use Rattle.mv_net.specs.Index.{is_held};
ghost use Rattle.mv_blif_text.specs.BlifText.{kind_word, control_word, kind_words, latch_words, latches_words};

use itoa::Buffer;
use mv_base::{Failed, Name, Sink};
use mv_latch::{BlifLatch, LatchKind};
use mv_net::{FlatLatch, Network};
use mv_write::Page;

/// The word of a kind of latch.
fn kind_word(kind: LatchKind) -> &'static [u8]
    ensures { result.now ≡ kind_word kind }
{
    match kind {
        LatchKind::Fe => b"fe",
        LatchKind::Re => b"re",
        LatchKind::Ah => b"ah",
        LatchKind::Al => b"al",
        LatchKind::As => b"as",
    }
}

/// The word of a control.
fn control_word(control: &Option<Name>) -> &[u8]
    ensures { result.now ≡ control_word control.now }
{
    match control {
        Some(word) => word.bytes(),
        None => b"NIL",
    }
}

/// Appends the kind of a latch and its control, where there is a kind, each behind a space.
fn put_kind<K: Sink>(latch: &BlifLatch, page: &mut Page, out: &mut K) -> Result<(), Failed>
    ensures { AddsPiece (paged (K.state out.old) page.old) (paged (K.state out.new) page.new)
        (spaced (kind_words latch.now.kind latch.now.control)) result }
{
    match latch.kind {
        None => Ok(()),
        Some(kind) => {
            page.put_both(b" ", kind_word(kind), out)?;
            page.put_both(b" ", control_word(&latch.control), out)
        }
    }
}

/// Appends what is said of a latch besides its nets, each word behind a space.
fn put_settings<K: Sink>(latch: &BlifLatch, page: &mut Page, out: &mut K) -> Result<(), Failed>
    ensures { AddsPiece (paged (K.state out.old) page.old) (paged (K.state out.new) page.new)
        (spaced (kind_words latch.now.kind latch.now.control ++ decimal latch.now.init ∷ []))
        result }
{
    put_kind(latch, page, out)?;
    let mut buffer = Buffer::new();
    page.put_both(b" ", buffer.format(latch.init).as_bytes(), out)
}

/// Appends the line of a latch.
fn put_latch<K: Sink>(
    net: &Network,
    latch: FlatLatch,
    said: &BlifLatch,
    page: &mut Page,
    out: &mut K,
) -> Result<(), Failed>
    requires input { IsTrue (is_held net.now.nets latch.input.0) }
    requires output { IsTrue (is_held net.now.nets latch.output.0) }
    ensures { AddsPiece (paged (K.state out.old) page.old) (paged (K.state out.new) page.new)
        (line_text (latch_words net.now.nets latch said.now)) result }
{
    page.put_both(b".latch ", net.name(latch.input), out)?;
    page.put_both(b" ", net.name(latch.output), out)?;
    put_settings(said, page, out)?;
    page.put(b"\n", out)
}

/// Appends the lines of all latches, in order, each with what is said of it.
pub fn put_latches<K: Sink>(
    net: &Network,
    said: &[BlifLatch],
    page: &mut Page,
    out: &mut K,
) -> Result<(), Failed>
    requires { length said.now ≡ length net.now.latches }
    ensures { AddsPiece (paged (K.state out.old) page.old) (paged (K.state out.new) page.new)
        (flat_map line_text (latches_words net.now.nets net.now.latches said.now)) result }
{
    net.well_formed();
    let latches = net.latches();
    for (at, latch) in latches.iter().enumerate() {
        put_latch(net, *latch, &said[at], page, out)?;
    }
    Ok(())
}
