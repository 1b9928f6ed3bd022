//! Pages from their pieces.
ghost use Rattle.std.specs.Prelude.{◌≡◌, ◌++◌, IfOk, OnOk};
ghost use Rattle.std.specs.List.{flat_map};
ghost use Rattle.parts.specs.Codes.{kind_number};
ghost use Rattle.dom.specs.Format.{Body, kind as kind_told, payload as payload_told, encoded};
ghost use Rattle.dom.specs.Format.Entry.{entry as entry_told};
ghost use Rattle.replay.specs.Built.{framed, comments, nest, built};

use crate::case::Piece;
use anyhow::ensure;
use std::alloc::Global;

const LONGEST: usize = 100_000;

/// Adds a record of that kind and depth, with that payload.
pub(crate) fn record(
    page: &mut Vec<u8>,
    kind: u16,
    depth: u16,
    payload: &[u8],
) -> anyhow::Result<()>
    ensures bytes { OnOk result (page.new.items ≡ page.old.items ++ framed kind depth payload.now) }
    ensures format { OnOk result ((b : Body) → kind_number (kind_told b) ≡ kind → payload_told b ≡ payload.now → page.new.items ≡ page.old.items ++ encoded (entry_told depth b)) }
{
    ensure!(payload.len() <= LONGEST, "a payload is too long");
    let follows = payload.len() as u32 + 4;
    page.extend_from_slice(&follows.to_le_bytes())?;
    page.extend_from_slice(&kind.to_le_bytes())?;
    page.extend_from_slice(&depth.to_le_bytes())?;
    page.extend_from_slice(payload)?;
    Ok(())
}

fn add_comments(page: &mut Vec<u8>, count: usize) -> anyhow::Result<()>
    ensures { OnOk result (page.new.items ≡ page.old.items ++ comments count) }
{
    for _ in 0..count {
        record(page, 4, 1, b"")?;
    }
    Ok(())
}

fn add_nest(page: &mut Vec<u8>, deepest: u16) -> anyhow::Result<()>
    ensures { OnOk result (page.new.items ≡ page.old.items ++ nest deepest) }
{
    for above in 0..deepest {
        record(page, 2, above + 1, b"\x01p")?;
    }
    Ok(())
}

fn add_piece(page: &mut Vec<u8>, piece: Piece) -> anyhow::Result<()>
    ensures { OnOk result (page.new.items ≡ page.old.items ++ built piece) }
{
    match piece {
        Piece::Record(kind, depth, payload) => record(page, kind, depth, payload)?,
        Piece::Raw(bytes) => page.extend_from_slice(bytes)?,
        Piece::Text(count) => {
            let text = vec![in *page.allocator(); b'a'; count]?;
            record(page, 3, 1, text.as_slice())?
        }
        Piece::Comments(count) => add_comments(page, count)?,
        Piece::Nest(deepest) => add_nest(page, deepest)?,
    }
    Ok(())
}

/// The page of those pieces.
pub(crate) fn build(heap: Global, pieces: &[Piece]) -> anyhow::Result<Vec<u8>>
    ensures { IfOk result (λ v. v.items ≡ flat_map built pieces.now) }
{
    let mut page = Vec::new(heap);
    for piece in pieces {
        add_piece(&mut page, *piece)?;
    }
    Ok(page)
}
