//! Forms that keep the rules.

ghost use Rattle.std.specs.Prelude.{◌≡◌, ◌↔◌, IsSome, IfOk, IfSome};
ghost use Rattle.isp_geom.specs.Rules.{IsGeometry};

use crate::Form;
use crate::rules::{LEVELS, is_form};
use isp_base::Duplicate;
use std::alloc::{AllocError, Global};
use std::marker::Model;

/// A form that keeps the rules: coordinates of at most 1,073,741,824 in size, lines of at least 2 points, closed rings
/// of at least 4, lists of 1 to 65,535 members and collections at most 8 deep. Contracts see it as its form.
#[derive(Drop)]
pub struct Geometry {
    pub form: Form,
}

impl Model for Geometry {
    ghost use Rattle.isp_geom.specs.declared.form.Form.{Form};
    ghost use Rattle.isp_geom.specs.Rules.{IsGeometry};
    ghost use Rattle.isp_geom.specs.contracts.form.Form as e;
    ghost use Rattle.std.specs.Coded.{codes};

    ghost Value = { Form };

    ghost coded = { Prim.hlevel (codes, e.the_row.coded) };

    ghost view = { λ g. g.form };

    ghost invariant = { λ g. IsGeometry g.form };
}

impl Geometry {
    /// The geometry of this form: None exactly where the form breaks a rule.
    pub fn new(form: Form) -> Option<Geometry>
        ensures kept { IsSome result ↔ IsGeometry form }
        ensures form { IfSome result (λ g. g ≡ form) }
    {
        if is_form(&form, LEVELS) {
            Some(Geometry { form })
        } else {
            None
        }
    }

    /// Its form, which keeps the rules.
    pub fn form(&self) -> &Form
        ensures form { result.now ≡ self.now }
        ensures kept { IsGeometry self.now }
    {
        &self.form
    }
}

impl Duplicate for Geometry {
    fn copy(&self, alloc: Global) -> Result<Geometry, AllocError> {
        let form = self.form.copy(alloc)?;
        Ok(Geometry { form })
    }
}
