// Texts that are read to their trees. Each is laid out as it is printed, so that its tree is seen by what is printed for
// it: the very same bytes.

use crate::reading::{Answer, comes_back, outcome_of, prints, text};
use std::alloc::Global;

// Every alternative of the grammar, in the order in which the tree's definition names them, in three parts.
//
// The items: a struct, string objects, and functions of all three linkages, each with and without a result. In the
// struct the types, one by one (four exact widths, `size_t`, `_Bool`, four pointers to numbers, a pointer to a struct,
// `const char*`), then a struct inside, then counts, one of each kind of number. In the functions no parameter, one, more;
// no local, one, more, without and with a first value.
const ITEMS: &[u8] = b"
typedef struct {
  uint8_t a;
  uint16_t b;
  uint32_t c;
  uint64_t d;
  size_t e;
  _Bool f;
  uint8_t* g;
  uint16_t* h;
  uint32_t* i;
  uint64_t* j;
  node* k;
  const char* l;
  leaf m;
  uint8_t n[4];
  node* o[3u];
  leaf p[2ull];
} node;

static const char none[] = \"\";

static const char note[] = \"#note: !?~ az AZ 09 ?\";

void a_0(void) {
}

uint8_t a_1(uint8_t x) {
  uint8_t y;
}

static void b_0(node* x, const char* y, _Bool z) {
  uint16_t u = 1;
  node* v = x;
  const char* w;
}

static uint64_t* b_1(void) {
  size_t x;
  return y;
}

static node* b_2(void) {
  ;
}

static const char* b_3(void) {
}

static inline void c_0(void) {
}

static inline const char* c_1(uint32_t* x) {
}
";

// The expressions: numbers of each kind, the largest ones too; names; `->`, `[..]`, `(*P)`; the 18 operators, then more
// operands for the seven that may repeat; the three operators before one operand; a cast to each type; `? :`; calls
// without, with one and with more arguments, `sizeof` among them, before and after.
const EXPRESSIONS: &[u8] = b"
void numbers_and_names(void) {
  x = 0;
  x = 2147483647;
  x = 4294967295u;
  x = 18446744073709551615ull;
  x = _y9Z;
  x = uint8_tt;
  x = p->a;
  x = p->k->a;
  x = p[0];
  x = p[q[i]]->a[j];
  x = (*p);
  x = (*p->k);
}

void operations(void) {
  x = (a + b);
  x = (a - b);
  x = (a * b);
  x = (a / b);
  x = (a % b);
  x = (a << b);
  x = (a >> b);
  x = (a & b);
  x = (a | b);
  x = (a ^ b);
  x = (a < b);
  x = (a <= b);
  x = (a > b);
  x = (a >= b);
  x = (a == b);
  x = (a != b);
  x = (a && b);
  x = (a || b);
  x = (a + b + c);
  x = (a * b * c);
  x = (a & b & c);
  x = (a | b | c | d);
  x = (a ^ b ^ c);
  x = (a && b && c);
  x = (a || b || c || d);
  x = (!a);
  x = (~a);
  x = (&a);
  x = ((uint8_t)a);
  x = ((uint16_t)a);
  x = ((uint32_t)a);
  x = ((uint64_t)a);
  x = ((size_t)a);
  x = ((_Bool)a);
  x = ((uint8_t*)a);
  x = ((uint16_t*)a);
  x = ((uint32_t*)a);
  x = ((uint64_t*)a);
  x = ((node*)a);
  x = ((const char*)a);
  x = (a ? b : c);
  x = (f());
  x = (f(a));
  x = (f(sizeof(*p)));
  x = (f(a, 1, sizeof(*p), (b + c)));
  x = (f(sizeof(*p), sizeof(*q)));
}
";

// The statements: blocks, `;`, assignments to each kind of lvalue, calls without and with a target, `goto`; `if` alone,
// with `else`, with `else if`, with both; `while`, `switch`, `case` with each kind of number, `default`, `return` without
// and with a value, a label.
const STATEMENTS: &[u8] = b"
void statements(void) {
  {
  }
  {
    ;
    {
      ;
    }
  }
  ;
  x = y;
  p->a = 1;
  p[i] = p[j];
  (*p) = (a + b);
  f();
  f(a, sizeof(*p));
  x = f();
  p->a = f(a);
  (*p)[i] = f(a, b);
  goto out;
  if (a) {
  }
  if (a) {
    ;
  } else {
  }
  if (a) {
  } else if (b) {
    x = 1;
  }
  if (a) {
    x = 1;
  } else if (b) {
    x = 2;
  } else if (c) {
    x = 3;
  } else {
    x = 4;
  }
  while (a) {
  }
  while ((a < 3)) {
    x = 1;
  }
  switch (a) {
  }
  switch (p->a) {
    case 1:
    case 2u:
    case 3ull:
    x = 1;
    default:
    ;
  }
  return;
  return 0;
  return (a + b);
  out:
  ;
}
";

// What the reader tells apart only by a second or third token: all that may stand after `(`, `((`, `((NAME` and
// `((NAME *`; after a name or `(` at the front of a statement or of a value; and what ends the locals of a function.
const LOOKS: &[u8] = b"
static inline uint8_t behind_a_parenthesis(node* p) {
  x = (1 + a);
  x = (a->b + 1);
  x = (a[0] ? 1 : 2);
  x = ((*p) + 1);
  x = (*(*p));
  x = (*(f(a)));
  x = (*(&a)->b);
  x = ((&a) == p);
  x = ((!a) && (~b));
  x = (((a + b) + c) + d);
  x = (((uint8_t)a) + ((node*)b));
  x = (((node*)p)->a + 1);
  x = (((size_t)((_Bool)a)) ? b : c);
  x = ((1 + a) + b);
  x = ((a + 1) + b);
  x = ((a->b + 1) + c);
  x = ((a->b[0]->c ? 1 : 2) + c);
  x = ((a[0] - 1) * 2);
  x = ((a ? b : c) ? d : e);
  x = ((f(a)) + (g()));
  x = ((f())->a - (f())[1]);
  x = ((a * b) + c);
  x = ((a * b * c) + d);
  x = ((a * b->c[0]) + d);
  x = ((a * 2) + d);
  x = ((a * (b + c)) + d);
  x = ((a * (*b)->c) + d);
  x = ((a * (*b)) + d);
  x = ((a * b)[0] + d);
  x = ((*p)->a + (*p)[0]);
  x = (((f(a)) + 1) + 2);
  x = (a + (b * c));
  x = (a[(b + c)]->d[1ull] + 1);
}

void in_front_of_a_statement(void) {
  p->a = 1;
  p[0]->b[1] = f();
  (*p)->a = b;
  (*(p + 1)) = b;
  (&s)->a = b;
  (p + 1)[0] = b;
  (f(a))->b = c;
  ((node*)p)->a = f(b);
  (a ? p : q)[0] = ((uint8_t)b);
  x = y->a;
  x = y[0];
  x = y;
  x = f(sizeof(*x), (*p)->a);
  x = (p + 1)[0];
  x = (&s)->a[2];
  return p->a;
  return (*p)->a;
  lower:
  upper:
  out:
  goto lower;
}

void behind_the_locals(void) {
  p->a = 1;
}

void a_call_first(void) {
  f(a);
}

void a_label_first(void) {
  a:
  ;
}

void a_word_first(void) {
  goto a;
}
";

// One text in three layouts: as it is printed, with no blank that may be left out, and with blanks everywhere.
const LAID: &[u8] = b"
typedef struct {
  uint8_t a;
  s* b[2];
  t c;
} s;

static const char d[] = \"x y\";

static inline void f(s* p, uint8_t q) {
  s* r = p;
  p->a = (q + 1);
  x = ((s*)p);
  if ((!q)) {
    g(r, sizeof(*p));
  } else if ((q && r)) {
    ;
  } else {
    return;
  }
  a:
  while (q) {
    x = (q << 1u);
  }
}
";

const TIGHT: &[u8] =
    b"typedef struct{uint8_t a;s*b[2];t c;}s;static const char d[]=\"x y\";static inline void f(s*p,uint8_t q){s*r=p;p->a=(q+1);x=((s*)p);if((!q)){g(r,sizeof(*p));}else if((q&&r)){;}else{return;}a:while(q){x=(q<<1u);}}";

const LOOSE: &[u8] = b"

typedef
struct
{ uint8_t  a ; s * b [ 2 ] ; t c ; } s ;


static  const  char  d [ ] = \"x y\" ;   static
inline void
 f ( s * p , uint8_t q ) { s
*
r
=
p ; p -> a = ( q + 1 ) ; x = ( ( s * ) p ) ; if ( ( ! q ) ) { g ( r , sizeof ( * p ) ) ; } else
if ( ( q && r ) ) { ; } else { return ; } a : while ( q ) { x = ( q << 1u ) ; } } 
 
";

/// Whether all alternatives are read, printed alike, and read again.
fn all_alternatives_come_back(alloc: Global) -> bool {
    prints(
        alloc,
        &[ITEMS, EXPRESSIONS, STATEMENTS, LOOKS],
        &[ITEMS, EXPRESSIONS, STATEMENTS, LOOKS],
    ) && comes_back(alloc, &[ITEMS, EXPRESSIONS, STATEMENTS, LOOKS])
}

/// Whether layout makes no difference.
fn layouts_print_alike(alloc: Global) -> bool {
    prints(alloc, &[LAID], &[LAID])
        && prints(alloc, &[TIGHT], &[LAID])
        && prints(alloc, &[LOOSE], &[LAID])
        && prints(alloc, &[], &[])
        && prints(alloc, &[b" \n "], &[])
}

#[test]
fn every_alternative_comes_back(rt: HostRuntime) {
    assert!(rt; all_alternatives_come_back(rt.alloc()) && layouts_print_alike(rt.alloc()));
}

// The fronts of a text that don't end too early, in two tables by their lengths, the least and the greatest: those that
// are texts themselves, which end with an item or in the line feeds after it; and those whose last token is cut to one
// that can't stand there, with the place where that token stands.

const TEXTS_IN_ITEMS: &[(usize, usize)] = &[
    (60, 61),
    (307, 309),
    (339, 341),
    (392, 394),
    (412, 414),
    (453, 455),
    (557, 559),
    (613, 615),
    (645, 647),
    (679, 681),
    (713, 715),
    (761, 762),
];

const CUTS_IN_ITEMS: &[(usize, usize, u64)] = &[
    (70, 74, 69), // `s` to `struc`, names
    (235, 237, 234), // `c` to `cha`, names
    (296, 296, 293), // `2ul`, no number
    (323, 325, 322), // `c` to `cha`, names
    (337, 337, 336), // a string without its end
    (355, 357, 354), // `c` to `cha`, names
    (369, 390, 368), // a string without its end
    (487, 489, 486), // `c` to `cha`, names
    (548, 550, 547), // `c` to `cha`, names
    (661, 663, 660), // `c` to `cha`, names
    (736, 738, 735), // `c` to `cha`, names
];

const TEXTS_IN_EXPRESSIONS: &[(usize, usize)] = &[(60, 61), (285, 287), (1163, 1164)];

const CUTS_IN_EXPRESSIONS: &[(usize, usize, u64)] = &[
    (135, 135, 125), // `4294967295`, no number
    (155, 166, 144), // `18446744073` to `18446744073709551615ul`, no numbers
    (194, 194, 187), // `uint8_t`, a word
    (205, 205, 204), // `-`
    (217, 217, 216), // `-`
    (220, 220, 219), // `-`
    (250, 250, 249), // `-`
    (279, 279, 278), // `-`
    (535, 535, 534), // `=`
    (551, 551, 550), // `!`
    (703, 703, 702), // `&`
    (724, 724, 723), // `|`
    (729, 729, 728), // `|`
    (1011, 1013, 1010), // `c` to `cha`, names
];

const TEXTS_IN_STATEMENTS: &[(usize, usize)] = &[(60, 61), (684, 685)];

const CUTS_IN_STATEMENTS: &[(usize, usize, u64)] = &[
    (144, 144, 143), // `-`
    (227, 227, 226), // `-`
    (339, 339, 338), // `i`, a name
    (394, 394, 393), // `i`, a name
    (423, 423, 422), // `i`, a name
    (552, 552, 551), // `-`
    (595, 595, 592), // `3ul`, no number
];

/// What the front of so many bytes becomes, by the tables of its text.
fn front_becomes(count: usize, texts: &[(usize, usize)], cuts: &[(usize, usize, u64)]) -> Answer {
    for (least, greatest) in texts {
        if *least <= count && count <= *greatest {
            return Answer::Read;
        }
    }
    for (least, greatest, at) in cuts {
        if *least <= count && count <= *greatest {
            return Answer::NotC(*at);
        }
    }
    match count {
        0..=19 => Answer::NotC(0),
        20..=39 => Answer::NotC(20),
        40..=59 => Answer::NotC(40),
        _ => Answer::NotC(count as u64),
    }
}

/// Whether each front of the text becomes what it should.
fn fronts_become(
    alloc: Global,
    part: &[u8],
    texts: &[(usize, usize)],
    cuts: &[(usize, usize, u64)],
) -> bool {
    let Ok(bytes) = text(alloc, &[part]) else {
        return false;
    };
    let mut fine = true;
    for count in 0..=bytes.len() {
        let (front, _) = bytes.as_slice().split_at(count);
        if outcome_of(alloc, front) != front_becomes(count, texts, cuts) {
            fine = false;
        }
    }
    fine
}

#[test]
fn every_front_is_answered(rt: HostRuntime) {
    assert!(rt; fronts_become(rt.alloc(), ITEMS, TEXTS_IN_ITEMS, CUTS_IN_ITEMS));
    assert!(rt;
        fronts_become(
            rt.alloc(),
            EXPRESSIONS,
            TEXTS_IN_EXPRESSIONS,
            CUTS_IN_EXPRESSIONS
        )
    );
    assert!(rt;
        fronts_become(
            rt.alloc(),
            STATEMENTS,
            TEXTS_IN_STATEMENTS,
            CUTS_IN_STATEMENTS
        )
    );
}
