// A card that leaves the reader once, by a plan.
ghost use Rattle.std.specs.Prelude.{◌≡◌, true, length, is_ok};
ghost use Rattle.std.proofs.Common.{ap};
ghost use Rattle.card.specs.Answers.{ReadSays, WriteSays, LaySays, is_yes};
ghost use Rattle.card.specs.Blocks.{put, blocks_of, length_sixteen};
ghost use Rattle.card.specs.Tears.{is_on, is_answered, touched, torn_bytes, tear_blocks, Stays, ReadByPlan, WriteByPlan, LayByPlan};

use crate::image::{block_of, put_block};
use crate::interface::{Card, Gone, Laid};
use layout::{Block, Image};

// What a write that is broken off leaves in its block.
#[derive(Clone, Copy)]
pub enum Torn {
    Old,
    New,
    Other([u8; 16]),
}

// How many reads and writes are answered before the card goes, what a broken-off write leaves, and how many lays then say no.
#[derive(Clone, Copy)]
pub struct Plan {
    pub answers: u32,
    pub torn: Torn,
    pub refusals: u32,
}

// How far the plan has come.
#[derive(Clone, Copy)]
pub enum Phase {
    // on, with so many answers left
    Here(u32),
    // off, and so many lays will say no
    Away(u32),
    // on again, for good
    Back,
}

#[derive(Drop)]
pub struct TearCard<'a> {
    image: &'a mut Image,
    plan: Plan,
    phase: Phase,
}

impl<'a> TearCard<'a> {
    // A card over an image, on the reader, that goes by the plan.
    pub fn new(image: &'a mut Image, plan: Plan) -> TearCard<'a>
        ensures bytes { result.image.now ≡ image.old }
        ensures lent { result.image.ghost_name ≡ image.entry.ghost_name }
        ensures plan { result.plan ≡ plan }
        ensures phase { result.phase ≡ Phase.Here plan.answers }
    {
        TearCard {
            image,
            plan,
            phase: Phase::Here(plan.answers),
        }
    }
}

impl Plan {
    // Where a read or a write leads.
    fn after_touch(self, phase: Phase) -> Phase
        ensures { result ≡ touched self phase }
    {
        match phase {
            Phase::Here(0) => Phase::Away(self.refusals),
            Phase::Here(n) => Phase::Here(n - 1),
            other => other,
        }
    }
}

impl Phase {
    // Whether a read or a write is answered.
    fn answers(self) -> bool
        ensures { result ≡ is_answered self }
    {
        match self {
            Phase::Here(n) => n > 0,
            Phase::Away(_) => false,
            Phase::Back => true,
        }
    }
}

impl Card for TearCard<'_> {
    ghost blocks = { tear_blocks };

    ghost present = { λ card. is_on card.phase };

    ghost steady = { Stays };

    ghost same = { λ card later. later.image.ghost_name ≡ card.image.ghost_name };

    ghost full = { λ card b. length_sixteen _ };

    ghost there = { λ card back. ap is_on back };

    fn read(&mut self, block: Block) -> Result<[u8; 16], Gone>
        ensures says { ReadSays (tear_blocks self.old) (is_on self.old.phase) (tear_blocks self.new) (is_on self.new.phase) block.0 result }
        ensures steady { Stays self.old → (is_ok result ≡ true) × Stays self.new }
        ensures same { self.new.image.ghost_name ≡ self.old.image.ghost_name }
        ensures plan { ReadByPlan self.old self.new block.0 result }
    {
        let answered = self.phase.answers();
        self.phase = self.plan.after_touch(self.phase);
        if answered {
            Ok(block_of(self.image, block))
        } else {
            Err(Gone)
        }
    }

    #[tactic(auto, using(crate::proofs::TornWrites::none_left))]
    fn write(&mut self, block: Block, bytes: &[u8; 16]) -> Result<(), Gone>
        ensures says { WriteSays (tear_blocks self.old) (is_on self.old.phase) (tear_blocks self.new) (is_on self.new.phase) block.0 bytes.now result }
        ensures steady { Stays self.old → (is_ok result ≡ true) × Stays self.new }
        ensures same { self.new.image.ghost_name ≡ self.old.image.ghost_name }
        ensures plan { WriteByPlan self.old self.new block.0 bytes.now result }
    {
        let phase = self.phase;
        self.phase = self.plan.after_touch(phase);
        if phase.answers() {
            put_block(self.image, block, bytes);
            return Ok(());
        }
        if let Phase::Here(_) = phase {
            tear_block(self.image, block, bytes, self.plan.torn);
        }
        Err(Gone)
    }

    fn lay(&mut self) -> Laid
        ensures says { LaySays (tear_blocks self.old) (tear_blocks self.new) (is_on self.new.phase) result }
        ensures steady { Stays self.old → (is_yes result ≡ true) × Stays self.new }
        ensures same { self.new.image.ghost_name ≡ self.old.image.ghost_name }
        ensures plan { LayByPlan self.old self.new result }
    {
        match self.phase {
            Phase::Away(0) => {
                self.phase = Phase::Back;
                Laid::Yes
            }
            Phase::Away(n) => {
                self.phase = Phase::Away(n - 1);
                Laid::No
            }
            _ => Laid::Yes,
        }
    }
}

// What a write that is broken off leaves.
#[tactic(auto, using(crate::proofs::Sixteen::put_same, crate::specs::Blocks::length_sixteen))]
fn tear_block(image: &mut Image, block: Block, bytes: &[u8; 16], torn: Torn)
    ensures put { blocks_of image.new ≡ put (blocks_of image.old) block.0 (torn_bytes torn (blocks_of image.old block.0) bytes.now) }
    ensures whole { length (torn_bytes torn (blocks_of image.old block.0) bytes.now) ≡ 16 }
{
    match torn {
        Torn::Old => {}
        Torn::New => put_block(image, block, bytes),
        Torn::Other(left) => put_block(image, block, &left),
    }
}
