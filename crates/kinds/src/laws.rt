// The laws of content kinds, each as a contract. A law stands on a function that does nothing, so that
// the check asks for it and code can cite it.
ghost use Rattle.kinds.specs.Law.{KindLaw};
ghost use Rattle.kinds.specs.Row.{RowFormat};
ghost use Rattle.kinds.specs.Valve.{ValveFormat};

use crate::kind::Kind;

/// The law of content kinds holds of every kind.
pub fn kind_law_stands<K: Kind>()
    ensures { KindLaw K.Kind }
{}

/// The day row's format in words holds of the definitions that reading and writing are proved against.
pub fn row_format_stands()
    ensures { RowFormat }
{}

/// The valve record's format in words holds of the definitions that reading and writing are proved against.
pub fn valve_format_stands()
    ensures { ValveFormat }
{}
