// The numbers behind a key, with commas between.
ghost use Rattle.std.specs.Prelude.{◌<◌, All, IfSome};

// A number of at most five digits, and nothing else.
fn number(text: &[u8]) -> Option<usize>
    ensures { IfSome result (λ x. x < 100000) }
{
    let read = text::number(text, 5)?;
    if read.next == text.len() {
        Some(read.value)
    } else {
        None
    }
}

// One to five numbers, with commas between, and nothing else. They are put into the places lent, and the count beside the `for` says how many.
pub fn numbers<'a>(text: &[u8], places: &'a mut [usize; 5]) -> Option<&'a [usize]>
    ensures { IfSome result (λ xs. All (λ x. x < 100000) xs.now) }
{
    let mut count = 0;
    for part in text.split(|x| *x == b',') {
        if count == 5 {
            return None;
        }
        places[count] = number(part)?;
        count += 1;
    }
    Some(&places[..count])
}
