//! What each kind does to one key, and the laws of a kind.
ghost use Rattle.std.specs.Prelude.{◌≡◌, IfOk, IfErr, Option};
ghost use Rattle.std.specs.Option.{option_copied};
ghost use Rattle.ds_cell.specs.Deed.{guarded};

use crate::cell::Cell;
use crate::entry::At;
use crate::verdict::{ActFault, Bit, Verdict};
use ds_base::{Key, Seq, Stamp, Value};
use ds_kind::Kind;
use std::alloc::{AllocError, Global};

// A write is refused where a stamp stands in its way; everything else goes before that.
fn guarded(in_the_way: Option<Stamp>, verdict: Verdict) -> Verdict
    ensures { result ≡ guarded in_the_way verdict }
{
    match (in_the_way, verdict) {
        (Some(stamp), Verdict::Put(_, _)) => Verdict::Refuse(ActFault::TooOld { stamp }),
        (_, verdict) => verdict,
    }
}

/// A kind that acts on keys. Its meaning is `ask`: what a request of it is answered over its own span,
/// and what it writes there. Every law speaks of that. Key by key it is decided by
/// [`judge`](Acts::judge), by what it sees of a key, and [`again`](Acts::again), what it answers for a
/// write that it made before.
pub trait Acts: Kind {
    ghost use Rattle.std.specs.Prelude.{ℕ, List};
    ghost use Rattle.ds_base.specs.declared.value.Value.{Value};
    ghost use Rattle.ds_kind.specs.Flags.{is_numbered};
    ghost use Rattle.ds_kind.specs.declared.reply.Body.{Body};
    ghost use Rattle.ds_cell.specs.declared.verdict.Verdict.{Verdict};
    ghost use Rattle.ds_cell.specs.declared.verdict.Bit.{Bit};
    ghost use Rattle.ds_cell.specs.declared.entry.At.{At};
    ghost use Rattle.ds_cell.specs.Deed.{Sight, sight, deed, content_after, IsBitOf, IsFaultOf};
    ghost use Rattle.ds_cell.specs.Ask.{Cells};
    ghost use Rattle.ds_cell.specs.Replies.{Bits};
    ghost use Rattle.ds_cell.specs.Responses.{Response};
    ghost use Rattle.ds_cell.specs.Laws.{Lawful, AsksEach, JoinLaw, PointLaw, CutLaw, RepeatLaw, ReadsLaw, StaysLaw, FlagLaw, WritesIf};

    // what a request of these arguments is answered over its span, and what it writes there
    ghost ask: { Self.Args → At → Cells → Response };

    // the same request on the part of its span from a start up to an end
    ghost cut: { List ℕ → List ℕ → Self.Args → Self.Args };

    // what the kind decides by what it sees of a key
    ghost judge: { Self.Args → Sight → Verdict };

    // what it answers for a write that it made before
    ghost again: { Option Value → Bit };

    // the reply's body, made of the answers at the keys
    ghost body: { Self.Args → Bits → Body };

    /// What the kind decides by what a request at `at` sees of a key up to the number `look`. The one
    /// refusal is want of memory.
    fn judge(
        alloc: Global,
        args: &Self::Args,
        cell: &Cell,
        at: At,
        look: Seq,
    ) -> Result<Verdict, AllocError>
        ensures { IfOk result (λ v. v ≡ judge args.now (sight at look.0 cell.now)) };

    /// What the kind answers for a write that it made before, by the value that it wrote. The one
    /// refusal is want of memory.
    fn again(alloc: Global, written: Option<&Value>) -> Result<Bit, AllocError>
        ensures { IfOk result (λ b. b ≡ again (option_copied written.entry)) };

    /// What a request of the kind decides for a key of its span, by what it sees there. The one refusal
    /// is want of memory.
    fn decide(alloc: Global, args: &Self::Args, cell: &Cell, at: At) -> Result<Verdict, AllocError>
        ensures { IfOk result (λ v. v ≡ deed (is_numbered Self.FLAGS) (judge args.now) again at cell.now) }
    {
        let numbered = Self::FLAGS.is_numbered();
        if numbered {
            if let Some(write) = cell.written(at, at.seq) {
                return Ok(Verdict::Keep(Self::again(alloc, write.value.as_ref())?));
            }
        }
        let look = if numbered {
            Seq(at.seq.0.saturating_sub(1))
        } else {
            at.seq
        };
        let verdict = Self::judge(alloc, args, cell, at, look)?;
        Ok(guarded(cell.too_old(at), verdict))
    }

    /// What a request of the kind does to a key of its span. Any fault leaves the cell as it was.
    fn act(
        alloc: Global,
        _key: &Key,
        cell: &mut Cell,
        at: At,
        args: &Self::Args,
    ) -> Result<Bit, ActFault>
        ensures ok { IfOk result (λ b. IsBitOf (deed (is_numbered Self.FLAGS) (judge args.now) again at cell.old) b × (cell.new ≡ content_after at (deed (is_numbered Self.FLAGS) (judge args.now) again at cell.old) cell.old)) }
        ensures err { IfErr result (λ f. IsFaultOf (deed (is_numbered Self.FLAGS) (judge args.now) again at cell.old) f × (cell.new ≡ cell.old)) }
    {
        let verdict = Self::decide(alloc, args, cell, at).map_err(|_| ActFault::Memory(
            AllocError,
        ))?;
        match verdict {
            Verdict::Keep(bit) => Ok(bit),
            Verdict::Refuse(fault) => Err(fault),
            Verdict::Put(value, bit) => {
                match cell.write(alloc, at, value) {
                    Ok(_) => Ok(bit),
                    Err(_) => Err(ActFault::Memory(AllocError)),
                }
            }
        }
    }

    ghost flagged: { (a : Self.Args) → WritesIf (is_numbered Self.FLAGS) (judge a) };

    ghost lawful: { (a : Self.Args) → Lawful Self.FLAGS (λ b. deed (is_numbered Self.FLAGS) (judge b) again) body Self.reach cut ask a };

    ghost asks: { (a : Self.Args) → AsksEach (λ b. deed (is_numbered Self.FLAGS) (judge b) again) body Self.reach ask a } = { λ a. (lawful a).0 };

    ghost join: { (a : Self.Args) → JoinLaw Self.FLAGS.reverse Self.reach cut ask a } = { λ a. (lawful a).1 };

    ghost point: { (a : Self.Args) → PointLaw (λ b. deed (is_numbered Self.FLAGS) (judge b) again) body Self.reach cut ask a } = { λ a. (lawful a).2 };

    ghost cuts: { (a : Self.Args) → CutLaw (λ b. deed (is_numbered Self.FLAGS) (judge b) again) body Self.reach cut a } = { λ a. (lawful a).3 };

    ghost repeat: { (a : Self.Args) → RepeatLaw Self.reach ask a } = { λ a. (lawful a).4 };

    ghost reads: { (a : Self.Args) → ReadsLaw Self.reach ask a } = { λ a. (lawful a).5 };

    ghost stays: { (a : Self.Args) → StaysLaw Self.reach ask a } = { λ a. (lawful a).6 };

    ghost writes_if_flagged: { (a : Self.Args) → FlagLaw Self.FLAGS.write ask a } = { λ a. (lawful a).7 };
}
