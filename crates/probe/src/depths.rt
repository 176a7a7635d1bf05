// What a tag asks of the depths, and what becomes of them, in numbers. Number 0 where the depths are such as the rules
// ask for; number 1 and zeros where not.
ghost use Rattle.std.specs.Prelude.{true, ◌≡◌};
ghost use Rattle.rules.specs.Shapes.{Flows};
ghost use Rattle.probe.specs.Depths.{holds, fits, no_depths, AfterSame, JumpedSame, NeededSame, ToldIf};

use answer::Depths;
use rules::Effect;
use rules::shapes::{self, Flow};

// C interface: an enum does not cross it, so the case is a number.
#[repr(C)]
#[derive(Clone, Copy)]
pub struct DepthsTold {
    pub number: u64,
    pub operands: u64,
    pub iterators: u64,
    pub handlers: u64,
}

// How many a tag needs, and 1 or 0 for what is true of it or not.
#[repr(C)]
#[derive(Clone, Copy)]
pub struct NeededTold {
    pub iterators: u64,
    pub handlers: u64,
    pub falls: u64,
    pub plain: u64,
}

// A tag's flow.
fn flow_of(tag: u8) -> Flow
    ensures { Flows tag result }
{
    Flow::of(shapes::shape_of(tag))
}

// The iterators and handlers that a tag needs are there, and one more of each fits.
#[tactic(auto, using(crate::proofs::Held::one_more), unfolding(crate::specs::Depths::holds))]
fn has_depths(tag: u8, iterators: u32, handlers: u32) -> bool
    ensures { result ≡ holds tag iterators handlers }
{
    let flow = flow_of(tag);
    flow.iterators_needed() <= iterators
        && flow.handlers_needed() <= handlers
        && iterators < u32::MAX
        && handlers < u32::MAX
}

// So many can be popped, and what is left fits with those that are pushed. Two words of 32 bits are added in 64.
#[tactic(auto, unfolding(crate::specs::Depths::fits))]
fn has_operands(pops: u32, pushes: u32, operands: u32) -> bool
    ensures { result ≡ fits pops pushes operands }
{
    pops <= operands && u64::from(operands - pops) + u64::from(pushes) < 0x1_0000_0000
}

// What is told where the depths are not such as the rules ask for.
fn nothing() -> DepthsTold
    ensures { result ≡ no_depths }
{
    DepthsTold {
        number: 1,
        operands: 0,
        iterators: 0,
        handlers: 0,
    }
}

// And where they are.
fn tell(depths: Depths) -> DepthsTold
    ensures { ToldIf true depths result }
{
    DepthsTold {
        number: 0,
        operands: u64::from(depths.operands),
        iterators: u64::from(depths.iterators),
        handlers: u64::from(depths.handlers),
    }
}

// The depths just after an instruction that needs, pops and pushes so many.
#[tactic(auto, using(crate::proofs::Held::held_by, crate::proofs::Held::popped, crate::proofs::Held::pushed))]
#[unsafe(no_mangle)]
pub extern "C" fn probe_after(
    tag: u8,
    needs: u32,
    pops: u32,
    pushes: u32,
    operands: u32,
    iterators: u32,
    handlers: u32,
) -> DepthsTold
    ensures { AfterSame tag pops pushes operands iterators handlers result }
{
    if !has_depths(tag, iterators, handlers) || !has_operands(pops, pushes, operands) {
        return nothing();
    }
    let effect = Effect {
        needs,
        pops,
        pushes,
    };
    let before = Depths {
        operands,
        iterators,
        handlers,
    };
    tell(flow_of(tag).after(effect, before))
}

// The depths at each target, from those before an instruction and those after it.
#[tactic(auto, using(crate::proofs::Held::held_by))]
#[unsafe(no_mangle)]
pub extern "C" fn probe_jumped(
    tag: u8,
    operands: u32,
    iterators: u32,
    handlers: u32,
    operands_after: u32,
    iterators_after: u32,
    handlers_after: u32,
) -> DepthsTold
    ensures { JumpedSame
        tag operands iterators handlers operands_after iterators_after handlers_after result }
{
    if !has_depths(tag, iterators, handlers) {
        return nothing();
    }
    let before = Depths {
        operands,
        iterators,
        handlers,
    };
    let after = Depths {
        operands: operands_after,
        iterators: iterators_after,
        handlers: handlers_after,
    };
    tell(flow_of(tag).jumped(before, after))
}

// What a tag needs of iterators and handlers, and whether control goes on after it, and nowhere else.
#[unsafe(no_mangle)]
pub extern "C" fn probe_needed(tag: u8) -> NeededTold
    ensures { NeededSame tag result }
{
    let flow = flow_of(tag);
    NeededTold {
        iterators: u64::from(flow.iterators_needed()),
        handlers: u64::from(flow.handlers_needed()),
        falls: u64::from(flow.falls()),
        plain: u64::from(flow.plain()),
    }
}
