// The types that operators give, and what may be assigned (ISO/IEC 9899:1999, 6.5.5 to 6.5.16).

ghost use Rattle.std.specs.Prelude.{◌≡◌, Some, option_map, IfSome};
ghost use Rattle.c_text.specs.CNodes.{type_in};
ghost use Rattle.c_text.specs.CFits.{HasType};
ghost use Rattle.c_meaning.specs.CTypes.{as_number as number_of, arithmetic_type, left_type, sum_type, one_type as common_of_two, test_type, operation_type, assignable};
ghost use Rattle.c_form_exprs.specs.TypeViews.{value_in, HasValue};

use crate::scope::CScope;
use crate::types::{ExprType, common_type};
use c_text::{COp, CType};
use wf_num::CTy;

impl<'k, 'u> CScope<'k, 'u> {
    /// The type of arithmetic (6.3.1.8).
    fn arithmetic(&self, a: ExprType, b: ExprType) -> Option<ExprType>
        ensures tells { option_map (value_in self.now.front.nodes.names) result ≡ arithmetic_type (number_of (value_in self.now.front.nodes.names a)) (number_of (value_in self.now.front.nodes.names b)) }
        ensures has { IfSome result (HasValue self.now.front.nodes) }
    {
        let left = self.as_number(a)?;
        let right = self.as_number(b)?;
        Some(ExprType::Numbers(common_type(left, right)))
    }

    /// The type of a shift: that of its left operand (6.5.7p3).
    fn shift(&self, a: ExprType, b: ExprType) -> Option<ExprType>
        ensures tells { option_map (value_in self.now.front.nodes.names) result ≡ left_type (number_of (value_in self.now.front.nodes.names a)) (number_of (value_in self.now.front.nodes.names b)) }
        ensures has { IfSome result (HasValue self.now.front.nodes) }
    {
        let left = self.as_number(a)?;
        self.as_number(b)?;
        Some(ExprType::Numbers(left))
    }

    /// The type of `+`: numbers, or a pointer and a number (6.5.6).
    fn sum(&self, a: ExprType, b: ExprType) -> Option<ExprType>
        requires { HasValue self.now.front.nodes a }
        ensures tells { option_map (value_in self.now.front.nodes.names) result ≡ sum_type (value_in self.now.front.nodes.names a) (value_in self.now.front.nodes.names b) }
        ensures has { IfSome result (HasValue self.now.front.nodes) }
    {
        match a {
            ExprType::PointsTo(target) => {
                self.as_number(b)?;
                Some(ExprType::PointsTo(target))
            }
            ExprType::Numbers(_) | ExprType::ZeroLiteral => self.arithmetic(a, b),
        }
    }

    /// The type of two numbers, or of two pointers of one type; where `zero` says so, also of a pointer and the literal
    /// 0 (6.5.8, 6.5.9, 6.5.15).
    pub fn one_type(&self, zero: bool, a: ExprType, b: ExprType) -> Option<ExprType>
        requires first { HasValue self.now.front.nodes a }
        requires second { HasValue self.now.front.nodes b }
        ensures tells { option_map (value_in self.now.front.nodes.names) result ≡ common_of_two zero (value_in self.now.front.nodes.names a) (value_in self.now.front.nodes.names b) }
        ensures has { IfSome result (HasValue self.now.front.nodes) }
    {
        match (a, b) {
            (ExprType::PointsTo(x), ExprType::PointsTo(y)) => {
                if self.is_same_target(x, y) {
                    Some(ExprType::PointsTo(x))
                } else {
                    None
                }
            }
            (ExprType::PointsTo(x), ExprType::ZeroLiteral) => {
                if zero {
                    Some(ExprType::PointsTo(x))
                } else {
                    None
                }
            }
            (ExprType::ZeroLiteral, ExprType::PointsTo(y)) => {
                if zero {
                    Some(ExprType::PointsTo(y))
                } else {
                    None
                }
            }
            (ExprType::PointsTo(_), ExprType::Numbers(_)) => None,
            (ExprType::Numbers(_), ExprType::PointsTo(_)) => None,
            (ExprType::Numbers(_), ExprType::Numbers(_)) => self.arithmetic(a, b),
            (ExprType::Numbers(_), ExprType::ZeroLiteral) => self.arithmetic(a, b),
            (ExprType::ZeroLiteral, ExprType::Numbers(_)) => self.arithmetic(a, b),
            (ExprType::ZeroLiteral, ExprType::ZeroLiteral) => self.arithmetic(a, b),
        }
    }

    /// The type of a comparison, an `int` (6.5.8p6, 6.5.9p3).
    fn comparison(&self, zero: bool, a: ExprType, b: ExprType) -> Option<ExprType>
        requires first { HasValue self.now.front.nodes a }
        requires second { HasValue self.now.front.nodes b }
        ensures tells { option_map (value_in self.now.front.nodes.names) result ≡ test_type (common_of_two zero (value_in self.now.front.nodes.names a) (value_in self.now.front.nodes.names b)) }
        ensures has { IfSome result (HasValue self.now.front.nodes) }
    {
        self.one_type(zero, a, b)?;
        Some(ExprType::Numbers(CTy::Int))
    }

    /// The type that an operator gives (6.5.5 to 6.5.14).
    pub(crate) fn operated(&self, op: COp, a: ExprType, b: ExprType) -> Option<ExprType>
        requires first { HasValue self.now.front.nodes a }
        requires second { HasValue self.now.front.nodes b }
        ensures tells { option_map (value_in self.now.front.nodes.names) result ≡ operation_type op (value_in self.now.front.nodes.names a) (value_in self.now.front.nodes.names b) }
        ensures has { IfSome result (HasValue self.now.front.nodes) }
    {
        match op {
            COp::Add => self.sum(a, b),
            COp::Shl | COp::Shr => self.shift(a, b),
            COp::Lt | COp::Le | COp::Gt | COp::Ge => self.comparison(false, a, b),
            COp::Eq | COp::Ne => self.comparison(true, a, b),
            COp::Both | COp::Either => Some(ExprType::Numbers(CTy::Int)),
            COp::Sub | COp::Mul | COp::Div | COp::Rem | COp::BitAnd | COp::BitOr | COp::BitXor =>
                self.arithmetic(a, b),
        }
    }

    /// Whether a value of this type may be assigned, passed, returned or initial: a number for a numeric target, else the
    /// target's pointer or the literal 0 (6.5.16.1).
    pub fn is_assignable(&self, target: CType, value: ExprType) -> bool
        requires target { HasType self.now.front.nodes target }
        requires value { HasValue self.now.front.nodes value }
        ensures { result ≡ assignable (type_in self.now.front.nodes.names target) (value_in self.now.front.nodes.names value) }
    {
        match value {
            ExprType::ZeroLiteral => true,
            ExprType::Numbers(_) => self.is_numeric(target),
            ExprType::PointsTo(from) => match self.value_type(target) {
                ExprType::PointsTo(to) => self.is_same_target(from, to),
                ExprType::Numbers(_) | ExprType::ZeroLiteral => false,
            },
        }
    }
}
