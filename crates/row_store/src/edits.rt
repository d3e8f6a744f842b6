//! Edits that move the places behind a rule by one.

ghost use Rattle.std.specs.Prelude.{◌≡◌, ◌+◌, ◌-◌, ◌<◌, length, take};
ghost use Rattle.std.specs.List.{insert, remove};

/// The places but the last gain x at place p; the last was free.
pub(crate) fn insert_at<T: Copy>(places: &mut [T], p: usize, x: T)
    requires { p < length places.old }
    ensures { places.new ≡ insert (take (length places.old - 1) places.old) p x }
{
    let last = places.len() - 1;
    places[last] = x;
    places[p..].rotate_right(1);
}

/// The places lose the one at place p; the last is free then.
pub(crate) fn remove_at<T: Copy>(places: &mut [T], p: usize)
    requires { p < length places.old }
    ensures { take (length places.old - 1) places.new ≡ remove places.old p }
{
    places[p..].rotate_left(1);
}
