ghost use Rattle.std.specs.Prelude.{◌≡◌, ◌++◌, ◌∷◌, List, OnOk};
ghost use Rattle.iscc_text.specs.UnitText.{unit_text};
ghost use Rattle.reg_history.specs.declared.lines.told.ToldReply.TheVariants.{Hits as AHits};
ghost use Rattle.reg_history.specs.lines.HistoryLines.{whole_line, told_row_line, told_reply_text, told_hit_text};

use crate::lines::told::{HistoryLine, ToldHit, ToldReply, ToldRow};
use crate::print::{print_declared, print_end_line, print_told_round};
use iscc_header::{Kind, NoMemory, Unit64};
use iscc_text::print_unit;
use reg_requests::{print_call, print_reply, print_word, print_word_number};

/// Appends the text of a line.
pub(crate) fn print_history_line(line: &HistoryLine, out: &mut Vec<u8>) -> Result<(), NoMemory>
    ensures { OnOk result (out.new.items ≡ out.old.items ++ whole_line line.now) }
{
    match line {
        HistoryLine::Head => print_word(b"iscc-history 1\n", out),
        HistoryLine::Carry(declared) => print_declared(declared, out),
        HistoryLine::Round(told) => print_told_round(told, out),
        HistoryLine::Row(row) => print_told_row(row, out),
        HistoryLine::End { rows, live } => print_end_line(*rows, *live, out),
    }
}

fn print_told_row(row: &ToldRow, out: &mut Vec<u8>) -> Result<(), NoMemory>
    ensures { OnOk result (out.new.items ≡ out.old.items ++ told_row_line row.now) }
{
    print_word_number(b"", row.session, out)?;
    print_word_number(b".", row.number, out)?;
    print_word_number(b" @", row.point, out)?;
    print_word(b" ", out)?;
    print_call(&row.call, out)?;
    print_word(b" = ", out)?;
    print_told_reply(&row.reply, out)?;
    print_word(b"\n", out)?;
    Ok(())
}

fn print_told_reply(reply: &ToldReply, out: &mut Vec<u8>) -> Result<(), NoMemory>
    ensures { OnOk result (out.new.items ≡ out.old.items ++ told_reply_text reply.now) }
{
    match reply {
        ToldReply::Hits(hits) => print_told_hits(hits.as_slice(), out),
        // The kind is that of hits, which are told otherwise.
        ToldReply::Plain(reply) => print_reply(reply, Kind::default(), out),
    }
}

fn print_told_hits(hits: &[ToldHit], out: &mut Vec<u8>) -> Result<(), NoMemory>
    ensures { OnOk result (out.new.items ≡ out.old.items ++ told_reply_text (AHits hits.now)) }
{
    print_word_number(b"hits ", hits.len() as u64, out)?;
    for hit in hits {
        print_told_hit(hit, out)?;
    }
    Ok(())
}

// A space, and the text of a hit.
fn print_told_hit(hit: &ToldHit, out: &mut Vec<u8>) -> Result<(), NoMemory>
    ensures { OnOk result (out.new.items ≡ out.old.items ++ 32 ∷ told_hit_text hit.now) }
{
    print_word_number(b" ", hit.id, out)?;
    print_word_number(b",", hit.distance, out)?;
    print_word_unit(b",", &hit.unit, out)
}

fn print_word_unit(word: &[u8], unit: &Unit64, out: &mut Vec<u8>) -> Result<(), NoMemory>
    ensures { OnOk result (out.new.items ≡ out.old.items ++ (word.now ++ unit_text unit.now)) }
{
    print_word(word, out)?;
    print_word(print_unit(unit).as_str().as_bytes(), out)
}
