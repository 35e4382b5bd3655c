ghost use Rattle.std.specs.Prelude.{◌≡◌, ◌-◌, length, take};

// Takes the last item away.
pub(crate) fn take_last<T: Copy + Drop>(list: &mut Vec<T>)
    ensures { list.new.items ≡ take (length list.old.items - 1) list.old.items }
{
    let _ = list.pop();
}
