//! Items moved to where they belong, and where what is left is met first.
ghost use Rattle.std.specs.Prelude.{◌≡◌, ◌<◌, ◌≤◌, ◌+◌, ◌∷◌, ◌++◌, [], true, None, IfSome, length, vec_capacity};
ghost use Rattle.std.specs.Option.{option_to_list};
ghost use Rattle.ds_kind.specs.Asks.{is_proper};
ghost use Rattle.ds_kind.specs.Reach.{reach_of_bounds};
ghost use Rattle.ds_cover.specs.Items.{AreProper};
ghost use Rattle.ds_cut.specs.Fates.{cut_of, left_of, all_cut, all_left};
ghost use Rattle.ds_cut.specs.Seek.{first_over, near_end_of};

use crate::fate::Fate;
use crate::seek::first_with;
use ds_base::Dir;
use ds_kind::{Bounds, Item};

/// Puts the item at the end, where there is room for it.
fn push(list: &mut Vec<Item>, item: Item)
    requires { length list.old.items < vec_capacity list.old }
    ensures items { list.new.items ≡ list.old.items ++ item ∷ [] }
    ensures room { vec_capacity list.old ≤ vec_capacity list.new }
{
    match list.push(item) {
        Ok(()) => (),
        Err(_) => unreachable!(),
    }
}

/// Puts the item at the end, if there is one, where there is room for it.
fn push_some(list: &mut Vec<Item>, item: Option<Item>)
    requires { length list.old.items < vec_capacity list.old }
    ensures items { list.new.items ≡ list.old.items ++ option_to_list item }
    ensures room { vec_capacity list.old ≤ vec_capacity list.new }
{
    if let Some(item) = item {
        push(list, item);
    }
}

/// Moves the item, or the copies that take its place, to where they belong.
fn hand_out(fate: Fate, item: Item, cut: &mut Vec<Item>, left: &mut Vec<Item>)
    requires cut_room { length cut.old.items < vec_capacity cut.old }
    requires left_room { length left.old.items < vec_capacity left.old }
    ensures cut { cut.new.items ≡ cut.old.items ++ cut_of fate item }
    ensures left { left.new.items ≡ left.old.items ++ left_of fate item }
    ensures cut_room { vec_capacity cut.old ≤ vec_capacity cut.new }
    ensures left_room { vec_capacity left.old ≤ vec_capacity left.new }
{
    match fate {
        Fate::Cut => push(cut, item),
        Fate::Left => push(left, item),
        Fate::Apart {
            cut: cut_off,
            left: kept,
        } => {
            push_some(cut, cut_off);
            push_some(left, kept);
        }
    }
}

/// Moves each item, or the copies that take its place, to the end of the list where they belong. It
/// takes no memory.
pub(crate) fn share(items: Vec<Item>, fates: Vec<Fate>, cut: &mut Vec<Item>, left: &mut Vec<Item>)
    requires same { length fates.items ≡ length items.items }
    requires cut_room { length cut.old.items + length items.items ≤ vec_capacity cut.old }
    requires left_room { length left.old.items + length items.items ≤ vec_capacity left.old }
    ensures cut { cut.new.items ≡ cut.old.items ++ all_cut fates.items items.items }
    ensures left { left.new.items ≡ left.old.items ++ all_left fates.items items.items }
{
    let mut fates = fates.into_iter();
    'items: for item in items {
        let Some(fate) = fates.next() else {
            unreachable!()
        };
        hand_out(fate, item, cut, left);
    }
}

/// What is met first, with what is left of one item more.
fn left_with<'a>(
    dir: Dir,
    so_far: Option<Bounds<'a>>,
    item: &'a Item,
    fate: &'a Fate,
) -> Option<Bounds<'a>>
    requires so_far { IfSome so_far (λ b. is_proper (reach_of_bounds b) ≡ true) }
    requires proper { AreProper (left_of fate.now item.now) }
    ensures near { near_end_of dir result ≡ first_over dir (near_end_of dir so_far.entry) (left_of fate.now item.now) }
    ensures proper { IfSome result (λ b. is_proper (reach_of_bounds b) ≡ true) }
{
    match fate {
        Fate::Cut => so_far,
        Fate::Left => Some(first_with(dir, so_far, item)),
        Fate::Apart { cut: _, left } => match left {
            Some(left) => Some(first_with(dir, so_far, left)),
            None => so_far,
        },
    }
}

/// What is met first of all that is left.
pub(crate) fn nearest_left<'a>(dir: Dir, items: &'a [Item], fates: &'a [Fate]) -> Option<Bounds<'a>>
    requires same { length fates.now ≡ length items.now }
    requires proper { AreProper (all_left fates.now items.now) }
    ensures near { near_end_of dir result ≡ first_over dir None (all_left fates.now items.now) }
    ensures proper { IfSome result (λ b. is_proper (reach_of_bounds b) ≡ true) }
{
    let mut so_far = None;
    let mut i = 0;
    'items: while i < items.len() {
        so_far = left_with(dir, so_far, &items[i], &fates[i]);
        i += 1;
    }
    so_far
}
