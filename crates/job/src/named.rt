// The cells that a record names.
ghost use Rattle.std.specs.Prelude.{◌≡◌};

use bounds::scope::Scope;
use records::body::BodyKind;
use records::bytes::Spot;
use std::marker::PhantomData;

#[derive(Drop)]
pub struct Named<'f, K> {
    spot: Spot<'f>,
    kind: PhantomData<K>,
}

impl<'f, K> Named<'f, K> {
    pub fn at(spot: Spot<'f>) -> Named<'f, K>
        ensures { result.spot ≡ spot.entry }
    {
        Named {
            spot,
            kind: PhantomData,
        }
    }
}

impl<K: BodyKind> Scope for Named<'_, K> {
    ghost scope = { λ named. K.BodyKind.form.names named.spot.bytes.now named.spot.place };

    fn arity(&self) -> usize {
        K::arity(self.spot)
    }

    fn cell(&self, i: usize) -> usize {
        usize::from(K::name(self.spot, i))
    }
}
