//! A request of any kind, and the laws as theorems.
ghost use Rattle.std.specs.Prelude.{◌≡◌, ◌<◌, Option, IfOk, IfErr};
ghost use Rattle.ds_base.specs.declared.value.Value.{Value};
ghost use Rattle.ds_kind.specs.Flags.{is_numbered, flags_of};
ghost use Rattle.ds_kind.specs.Request.{kind_of, reach_of, cut_to};
ghost use Rattle.ds_cell.specs.declared.entry.Version.{Version};
ghost use Rattle.ds_cell.specs.Content.{Content};
ghost use Rattle.ds_cell.specs.Change.{wrote, after_foreign};
ghost use Rattle.ds_cell.specs.declared.entry.At.{At};
ghost use Rattle.ds_cell.specs.Deed.{deed, content_after, IsBitOf, IsFaultOf};
ghost use Rattle.ds_cell.specs.Requests.{deed_of, respond_to, BodyLaw, StillLaw, KeysLaw};
ghost use Rattle.ds_cell.specs.Replies.{body_of};
ghost use Rattle.ds_cell.specs.Laws.{AsksEach, JoinLaw, PointLaw, CutLaw, RepeatLaw, BesideLaw, ReadsLaw, StaysLaw, FlagLaw, IsLater};

use crate::acts::Acts;
use crate::cell::Cell;
use crate::entry::At;
use crate::verdict::{ActFault, Bit, Verdict};
use ds_base::Key;
use ds_kind::{Request, on_kind};
use std::alloc::{AllocError, Global};

fn act_by<K: Acts>(
    alloc: Global,
    key: &Key,
    cell: &mut Cell,
    at: At,
    args: &K::Args,
) -> Result<Bit, ActFault>
    ensures ok { IfOk result (λ b. IsBitOf (deed (is_numbered K.FLAGS) (K.judge args.now) K.again at cell.old) b × (cell.new ≡ content_after at (deed (is_numbered K.FLAGS) (K.judge args.now) K.again at cell.old) cell.old)) }
    ensures err { IfErr result (λ f. IsFaultOf (deed (is_numbered K.FLAGS) (K.judge args.now) K.again at cell.old) f × (cell.new ≡ cell.old)) }
{
    K::act(alloc, key, cell, at, args)
}

fn decide_by<K: Acts>(
    alloc: Global,
    cell: &Cell,
    at: At,
    args: &K::Args,
) -> Result<Verdict, AllocError>
    ensures { IfOk result (λ v. v ≡ deed (is_numbered K.FLAGS) (K.judge args.now) K.again at cell.now) }
{
    K::decide(alloc, args, cell, at)
}

/// What a request decides for one key of its span. The one refusal is want of memory.
pub fn decide_request(
    alloc: Global,
    cell: &Cell,
    at: At,
    request: &Request,
) -> Result<Verdict, AllocError>
    ensures { IfOk result (λ v. v ≡ deed_of request.now at cell.now) }
{
    on_kind!(request, decide_by(alloc, cell, at))
}

/// What a request does to one key of its span. Any fault leaves the cell as it was.
pub fn act_request(
    alloc: Global,
    key: &Key,
    cell: &mut Cell,
    at: At,
    request: &Request,
) -> Result<Bit, ActFault>
    ensures ok { IfOk result (λ b. IsBitOf (deed_of request.now at cell.old) b × (cell.new ≡ content_after at (deed_of request.now at cell.old) cell.old)) }
    ensures err { IfErr result (λ f. IsFaultOf (deed_of request.now at cell.old) f × (cell.new ≡ cell.old)) }
{
    on_kind!(request, act_by(alloc, key, cell, at))
}

/// Does nothing: its clauses are the laws of every kind, each of what a request is answered over its own
/// span and what it writes there. That is decided at each key as [`Acts::decide`] says, and over one key
/// of the span it is what [`Acts::act`] does to it. Over a span, it is the join of itself on the two cuts,
/// reply and writes; and a cut request does the same at each key. Asked again with its number, it
/// writes nothing and answers the same, whatever stands beside by then, as a write under a later number.
/// It reads only its span, and answers and writes only there. It writes only if its kind is flagged so.
pub fn laws<K: Acts>(args: &K::Args)
    ensures asks { AsksEach (λ b. deed (is_numbered K.FLAGS) (K.judge b) K.again) K.body K.reach K.ask args.now }
    ensures join { JoinLaw K.FLAGS.reverse K.reach K.cut K.ask args.now }
    ensures point { PointLaw (λ b. deed (is_numbered K.FLAGS) (K.judge b) K.again) K.body K.reach K.cut K.ask args.now }
    ensures cuts { CutLaw (λ b. deed (is_numbered K.FLAGS) (K.judge b) K.again) K.body K.reach K.cut args.now }
    ensures repeat { RepeatLaw K.reach K.ask args.now }
    ensures beside { BesideLaw K.ask args.now }
    ensures reads { ReadsLaw K.reach K.ask args.now }
    ensures stays { StaysLaw K.reach K.ask args.now }
    ensures flags { FlagLaw K.FLAGS.write K.ask args.now }
{
    let _ = args;
}

/// Does nothing: its clauses are the laws of the request, as [`laws`] of its kind, and three more. Over
/// a span the bodies of two cuts join to the body of the whole. An end, a resolve or an admin request
/// leaves every key as it is. What a request answers and writes is decided by what it does at each key
/// that it speaks of, whichever keys are listed beside them.
pub fn request_laws(request: &Request)
    ensures join { JoinLaw (flags_of (kind_of request.now)).reverse reach_of cut_to respond_to request.now }
    ensures point { PointLaw deed_of body_of reach_of cut_to respond_to request.now }
    ensures cuts { CutLaw deed_of body_of reach_of cut_to request.now }
    ensures repeat { RepeatLaw reach_of respond_to request.now }
    ensures beside { BesideLaw respond_to request.now }
    ensures reads { ReadsLaw reach_of respond_to request.now }
    ensures stays { StaysLaw reach_of respond_to request.now }
    ensures flags { FlagLaw (flags_of (kind_of request.now)).write respond_to request.now }
    ensures bodies { BodyLaw request.now }
    ensures still { StillLaw request.now }
    ensures keys { KeysLaw request.now }
{
    let _ = request;
}

/// Does nothing: its clauses tell what a request at `at` does not notice. That is a write of its
/// transaction and epoch under a later number, a foreign write above its stamp, and one such thing
/// after another. So by the law of repeats it is answered the same beside them.
pub fn unnoticed(at: At)
    ensures write { (next : At) (w : Option Value) (c : Content) → next.txn.0 ≡ at.txn.0 → next.epoch ≡ at.epoch → at.seq.0 < next.seq.0 → IsLater at c (wrote next w c) }
    ensures foreign { (v : Version) (c : Content) → at.stamp.0 < v.stamp.0 → IsLater at c (after_foreign v c) }
    ensures nothing { (c : Content) → IsLater at c c }
    ensures both { (c d e : Content) → IsLater at c d → IsLater at d e → IsLater at c e }
{
    let _ = at;
}
