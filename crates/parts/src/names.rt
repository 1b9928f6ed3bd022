//! The names of namespaces.
ghost use Rattle.std.specs.Prelude.{Some};
ghost use Rattle.parts.specs.Names.{namespace_name};

use crate::Namespace;
use std::fmt;

impl fmt::Display for Namespace {
    ghost output = { λ n. Some (namespace_name n) };

    fn fmt<W: fmt::Write>(&self, f: &mut fmt::Formatter<W>) -> fmt::Result {
        f.write_str(match self {
            Namespace::Other => "other",
            Namespace::Html => "html",
            Namespace::Svg => "svg",
        })
    }
}
