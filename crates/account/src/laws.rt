// Laws of kinds and keys, as what calls ensure.
ghost use Rattle.account.specs.Laws.{KindsTold, KeysTold, WordingStated};

use crate::context::ContextKind;
use crate::kind::ErrorKind;

// What the equality of kinds and of keys tells, and what a kind's wording says.
pub fn kind_laws()
    ensures kinds { KindsTold ⟦<ErrorKind as PartialEq>⟧.eq }
    ensures keys { KeysTold ⟦<ContextKind as PartialEq>⟧.eq }
    ensures wording { WordingStated }
{}
