// A view of one location, stepped through its countries: the field's data and a cursor in them. `step` has the work, on a slice and numbers.
#![tactic(auto)]

ghost use Rattle.std.specs.Prelude.{◌≡◌};
ghost use Rattle.countries.specs.Step.{step_at};

#[derive(Clone, Copy)]
pub struct View<'a> {
    pub field: &'a [u8],
    pub at: usize,
    pub left: usize,
}

// What a step gives, the pool numbers of a country's name and code, and where the cursor stands then.
#[derive(Clone, Copy)]
pub struct Stepped {
    pub item: Option<(u64, u64)>,
    pub at: usize,
    pub left: usize,
}

// The next of `left` countries, from the place at of a field's data on.
pub fn step(s: &[u8], at: usize, left: usize) -> Stepped
    ensures { result ≡ step_at s.now at left }
{
    if left == 0 {
        return Stepped {
            item: None,
            at: at,
            left: left,
        };
    }
    if s.len() < at {
        return Stepped {
            item: None,
            at: at,
            left: left,
        };
    }
    match places::count_at(s, at) {
        Err(_) => Stepped {
            item: None,
            at: at,
            left: left,
        },
        Ok((name, a)) => match places::count_at(s, a) {
            Err(_) => Stepped {
                item: None,
                at: at,
                left: left,
            },
            Ok((code, e)) => Stepped {
                item: Some((name, code)),
                at: e,
                left: left - 1,
            },
        },
    }
}

pub fn opened<'a>(field: &'a [u8], at: usize, left: usize) -> View<'a>
    ensures { (result.field ≡ field.entry) × (result.at ≡ at) × (result.left ≡ left) }
{
    View { field, at, left }
}

// The next country of a view: each once, in file order, then no more.
pub fn next<'a>(v: View<'a>) -> Stepped
    ensures { result ≡ step_at v.entry.field.now v.entry.at v.entry.left }
{
    step(v.field, v.at, v.left)
}

// The same from a slice and numbers: whoever calls this needs no walk by hand.
pub fn next_in(field: &[u8], at: usize, left: usize) -> Stepped
    ensures { result ≡ step_at field.now at left }
{
    next(opened(field, at, left))
}
