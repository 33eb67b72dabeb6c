// Changes of a case's content, as a text writes them: a letter that names a list, a place in it, counted from 0, `=`, the number that stands there
// and `;`, as in `E7=5;`. A place that is left out is 0: `n=5;` changes a list of one number.
#![tactic(auto)]

ghost use Rattle.std.specs.Prelude.{◌≡◌, ℕ, ◌%◌, [], ◌∷◌, slice_index};
ghost use Rattle.changes.specs.Changes.{taken, made, changes_in};

// A change: its list, place and number.
#[derive(Clone, Copy)]
pub struct Change {
    list: u8,
    at: u32,
    value: u32,
}

// An entry of a list, which is what a number stands for.
pub trait Entry: Copy {
    ghost entry: { ℕ → Self };

    fn of_number(x: u32) -> Self
        ensures { result ≡ entry x };
}

// A number stands for itself.
impl Entry for u32 {
    ghost entry = { λ x. x };

    fn of_number(x: u32) -> u32 {
        x
    }
}

// A letter is its byte's number, without what passes a byte.
impl Entry for u8 {
    ghost entry = { λ x. x % 256 };

    fn of_number(x: u32) -> u8 {
        (x % 256) as u8
    }
}

// The change with one byte of its text more.
fn with(s: Change, b: u8) -> Change
    ensures { result ≡ taken s b }
{
    match b {
        b'0'..=b'9' => Change {
            value: s.value.wrapping_mul(10).wrapping_add(u32::from(b - b'0')),
            ..s
        },
        b'=' => Change {
            at: s.value,
            value: 0,
            ..s
        },
        b';' => s,
        _ => Change {
            list: b,
            at: 0,
            value: 0,
        },
    }
}

// Makes the changes of a list that a text has. A place that is not there is not set.
pub fn change_entries<T: Entry>(text: &[u8], list: u8, entries: &mut [T])
    ensures { entries.new ≡ made T.entry list (changes_in text.now) entries.old }
{
    let mut s = Change {
        list: 0,
        at: 0,
        value: 0,
    };
    for b in text {
        s = with(s, *b);
        let at = s.at as usize;
        if *b == b';' && s.list == list && at < entries.len() {
            entries[at] = T::of_number(s.value);
        }
    }
}

// A number, or the one that the text changes it to.
pub fn changed(text: &[u8], list: u8, x: u32) -> u32
    ensures { result ≡ slice_index (made (λ n. n) list (changes_in text.now) (x ∷ [])) 0 }
{
    let mut one = [x];
    change_entries(text, list, &mut one);
    one[0]
}
