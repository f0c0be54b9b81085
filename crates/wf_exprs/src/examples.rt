// Worked examples. Each is the contract of a function that does nothing.

ghost use Rattle.std.specs.Prelude.{◌≡◌, false, codes};
ghost use Rattle.wf_ast.specs.TypedTree.{plus, times, mod_times, less, greater, number, link, convert, compare, junction};
ghost use Rattle.c_text.specs.declared.kinds.COp.TheVariants.{Add, Mul, Lt, Gt, Either};
ghost use Rattle.c_text.specs.declared.kinds.CUnary.TheVariants.{Not};
ghost use Rattle.c_text.specs.CTree.{variable, member, unary, cast};
ghost use Rattle.wf_exprs.specs.Words.{num, uint_of, two};
ghost use Rattle.wf_exprs.specs.Exprs.{lowered_expr, lowered_cond};
ghost use Rattle.wf_exprs.specs.Samples.{some_names, here, digit, val, half};

/// `(10 * this.val) + (c as base.u32)` with a byte `c` is `((10 * self->f_val) + v_c)`: C converts the byte itself.
pub fn a_byte_beside_a_word_has_no_cast()
    ensures { lowered_expr some_names (link here here plus 32 false (link here here times 32 false (number here 10) val) (convert here here 32 digit))
        ≡ two Add (two Mul (num 10) (member (variable (codes "self")) (codes "f_val"))) (variable (codes "v_c")) }
{}

/// A product modulo 2^16 is `((uint16_t)(((uint32_t)a_n) * a_n))`.
pub fn a_product_of_two_halves_has_its_cast()
    ensures { lowered_expr some_names (link here here mod_times 16 false half half)
        ≡ cast (uint_of 16) (two Mul (cast (uint_of 32) (variable (codes "a_n"))) (variable (codes "a_n"))) }
{}

/// `(c < 5) or (c > 3)` with a byte `c` is `((!(!(v_c < 5))) || (v_c > 3))`, since one of the two always holds.
pub fn a_comparison_beside_one_that_decides_is_negated_twice()
    ensures { lowered_cond some_names (junction here false false (compare here here digit less (number here 5)) (compare here here digit greater (number here 3)))
        ≡ two Either (unary Not (unary Not (two Lt (variable (codes "v_c")) (num 5)))) (two Gt (variable (codes "v_c")) (num 3)) }
{}

/// `(c < 48) or (57 < c)` is `((v_c < 48) || (57 < v_c))`.
pub fn a_range_has_no_negations()
    ensures { lowered_cond some_names (junction here false false (compare here here digit less (number here 48)) (compare here here (number here 57) less digit))
        ≡ two Either (two Lt (variable (codes "v_c")) (num 48)) (two Lt (num 57) (variable (codes "v_c"))) }
{}
