// Reading blocks of any card, where a card that is gone is a refusal.
ghost use Rattle.std.specs.Prelude.{◌≡◌, ◌*◌, ◌≤◌, length};
ghost use Rattle.layout.specs.Runs.{OnCard};
ghost use Rattle.directory.specs.Looks.{Taken};
ghost use Rattle.directory.specs.Reads.{block_look, run_touches, run_reads, Filled};

use card::Card;
use layout::{Block, Reason, Refusal, Run};

// One block; refused where the card is gone.
pub fn read_block<C: Card>(card: &mut C, block: Block) -> Result<[u8; 16], Refusal>
    ensures { Taken C.Card (block_look block.0) card.old card.new result }
{
    card.read(block)
        .map_err(|_| Refusal::at(Reason::CardGone, usize::from(block.0)))
}

// The blocks of a run into the front of a buffer. Nothing is read of a run that leaves the card or is longer than the buffer.
pub fn read_run<C: Card>(card: &mut C, run: Run, buffer: &mut [u8]) -> Result<(), Refusal>
    ensures { Filled C.Card (run_reads run.start.0 run.length (length buffer.old)) card.old card.new buffer.old buffer.new result }
{
    if run.is_on_card() && 16 * usize::from(run.length) <= buffer.len() {
        fill_from_run(card, run, buffer)
    } else {
        Ok(())
    }
}

fn fill_from_run<C: Card>(card: &mut C, run: Run, buffer: &mut [u8]) -> Result<(), Refusal>
    requires run { OnCard run.start.0 run.length }
    requires room { 16 * run.length ≤ length buffer.old }
    ensures { Filled C.Card (run_touches run.start.0 run.length) card.old card.new buffer.old buffer.new result }
{
    // A zip with the buffer's chunks is no plainer: what the buffer holds when the card goes could then be said only by the parts given out so far.
    for i in 0..run.length {
        let block = run.block(i).unwrap();
        let bytes = read_block(card, block)?;
        let start = 16 * usize::from(i);
        buffer[start..start + 16].copy_from_slice(&bytes);
    }
    Ok(())
}
