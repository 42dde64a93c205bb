// The stage table: one step of one module, by value.
//
// 01, "The stage table", and 02, R-1. A row reads or writes the shared part of ONE module, the one that `looks_at` names, or the lock word.
// So `step` takes the stepping module's private part, that one shared part and the lock word, and answers what each is afterwards.
#![tactic(auto)]

ghost use Rattle.std.specs.Prelude.{◌≡◌};
ghost use Rattle.link.specs.Count.{next, size};
ghost use Rattle.stage.specs.Rows.{looks_at, stepped};
ghost use Rattle.row.specs.AfterSwap.{Follows};

use stage::{Answer, Private, Shared, Stepped};

// Whose shared part the module p looks at in its step.
#[tactic(auto, using(crate::proofs::AtStage::tests), unfolding(stage::specs::Rows::find, stage::specs::Rows::rows))]
pub fn looks_at(me: Private, p: u8) -> u8
    ensures { result ≡ looks_at p me }
{
    match me.stage {
        5 | 6 | 9 | 10 => me.prev,
        7 => me.w.pointer,
        17 | 18 => me.s,
        _ => p,
    }
}

// The stage whose row is a swap.
pub const SWAP: u8 = 9;

// Where a swap leads, and its answer.
#[derive(Clone, Copy, Debug, PartialEq, Eq)]
pub struct After {
    pub stage: u8,
    pub answer: Answer,
}

// What follows a swap at stage 9: it was done, or it failed and found a link with this mark.
#[tactic(auto, using(crate::proofs::AfterSwap::done, crate::proofs::AfterSwap::failed))]
pub fn after_swap(swapped: Result<(), u8>) -> After
    ensures { Follows swapped result }
{
    match swapped {
        Ok(()) => After {
            stage: 11,
            answer: Answer::JOINED,
        },
        Err(mark) => After {
            stage: if mark == link::CLOSED { 1 } else { 10 },
            answer: Answer::DONE,
        },
    }
}

// One step of the module p: the row of its stage. At 0 and 13, and at a number that is no stage, there is none.
#[tactic(auto, using(crate::proofs::AtStage::tests), unfolding(stage::specs::Rows::find, stage::specs::Rows::rows))]
pub fn step(p: u8, me: Private, its: Shared, mut lock: u8) -> Stepped
    ensures { result ≡ stepped (next size) p me its lock }
{
    let stage = me.stage;
    let mut next = stage;
    let mut own = me.own;
    let mut prev = me.prev;
    let mut w = me.w;
    let mut s = me.s;
    let mut link = its.link;
    let mut priority = its.priority;
    let mut locked = its.locked;
    let answer = match stage {
        0 => Answer::DONE,
        1 => {
            link = link.point(0);
            next = 2;
            Answer::DONE
        }
        2 => {
            if lock == 0 {
                lock = p;
                next = 19;
                Answer::JOINED
            } else {
                prev = lock;
                next = 4;
                Answer::DONE
            }
        }
        3 => {
            link = link.open();
            next = 13;
            Answer::admitted(p)
        }
        4 => {
            locked = 1;
            next = 5;
            Answer::DONE
        }
        5 => {
            w = link;
            next = if link.mark == link::CLOSED { 1 } else { 6 };
            Answer::DONE
        }
        6 => {
            next = if priority < own {
                1
            } else if w.pointer == 0 {
                8
            } else {
                7
            };
            Answer::DONE
        }
        7 => {
            if priority < own {
                next = 8;
            } else {
                prev = w.pointer;
                next = 5;
            }
            Answer::DONE
        }
        8 => {
            link = link.point(w.pointer);
            next = 9;
            Answer::DONE
        }
        9 => match link.swap(w, p) {
            Ok(now) => {
                link = now;
                let after = after_swap(Ok(()));
                next = after.stage;
                after.answer
            }
            Err(found) => {
                w = found;
                let after = after_swap(Err(found.mark));
                next = after.stage;
                after.answer
            }
        },
        10 => {
            next = if priority < own { 1 } else { 5 };
            Answer::DONE
        }
        11 => {
            link = link.open();
            next = 12;
            Answer::DONE
        }
        12 => {
            if locked == 0 {
                next = 13;
                Answer::admitted(p)
            } else {
                Answer::WAITING
            }
        }
        13 => Answer::DONE,
        14 => {
            link = link.close();
            next = 15;
            Answer::LEFT
        }
        15 => {
            s = link.pointer;
            next = 16;
            Answer::DONE
        }
        16 => {
            lock = s;
            if s == 0 {
                own = 0;
                next = 0;
                Answer::FINISHED
            } else {
                next = 17;
                Answer::DONE
            }
        }
        17 => {
            priority = 255; // of s
            next = 18;
            Answer::DONE
        }
        18 => {
            locked = 0; // of s
            own = 0;
            next = 0;
            Answer::FINISHED
        }
        19 => {
            priority = 255; // its own
            next = 3;
            Answer::DONE
        }
        _ => Answer::DONE,
    };
    Stepped {
        me: Private {
            stage: next,
            own,
            prev,
            w,
            s,
        },
        its: Shared {
            link,
            priority,
            locked,
        },
        lock,
        answer,
    }
}
