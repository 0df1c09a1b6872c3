//! The places that are left.

ghost use Rattle.std.specs.Prelude.{◌≡◌, ◌++◌, IfOk, drop};
ghost use Rattle.sl_store_write.specs.Placing.{first_place};
ghost use Rattle.sl_store_format.specs.Items.{write_place};

use sl_preproc::Place;
use sl_store_bytes::put_number;
use std::alloc::AllocError;
use std::marker::Model;

/// The places that are left, of which each item takes the first.
#[derive(Drop)]
pub struct Places<'s> {
    left: &'s [Place],
}

impl<'s> Model for Places<'s> {
    ghost use Rattle.std.specs.Prelude.{List};
    ghost use Rattle.sl_preproc.specs.declared.places.Place as place;

    ghost Value = { List place.Place };

    ghost view = { λ p. p.left.now };
}

impl<'s> Places<'s> {
    /// All of these.
    pub fn new(left: &'s [Place]) -> Places<'s>
        ensures { result ≡ left.now }
    {
        Places { left }
    }

    /// Takes the next place: the first file as a whole where none is left.
    pub fn next(&mut self) -> Place
        ensures place { result ≡ first_place self.old }
        ensures left { self.new ≡ drop 1 self.old }
    {
        match self.left {
            [] => Place { file: 0, line: 0 },
            [place, others @ ..] => {
                self.left = others;
                *place
            }
        }
    }
}

/// Takes the next place and writes it.
pub fn put_place(out: &mut Vec<u8>, places: &mut Places<'_>) -> Result<(), AllocError>
    ensures bytes { IfOk result (λ _. out.new.items ≡ out.old.items ++ write_place (first_place places.old)) }
    ensures left { IfOk result (λ _. places.new ≡ drop 1 places.old) }
{
    let place = places.next();
    put_number(out, u64::from(place.file))?;
    put_number(out, u64::from(place.line))?;
    Ok(())
}
