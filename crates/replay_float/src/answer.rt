// What an operation answers.
use float::of_bits;
use replay::{Line, Words, short, vec};
use vector::Vec3;

// The result words of the case that a line is; none where it is no case.
pub fn to(line: &Line<'_>) -> Option<Words> {
    match line.given.as_slice() {
        [x] => of_one(line.name, of_bits(*x)),
        [a, b] => of_two(line.name, of_bits(*a), *b),
        [x, y, z] => of_three(line.name, vec(*x, *y, *z)),
        [x, y, z, k] => of_four(line.name, vec(*x, *y, *z), of_bits(*k)),
        [x, y, z, u, v, w] => of_six(line.name, vec(*x, *y, *z), vec(*u, *v, *w)),
        _ => None,
    }
}

fn of_one(name: &[u8], x: f32) -> Option<Words> {
    Some(match name {
        b"sqrt" => float_word(float::sqrt(x)),
        b"abs" => float_word(float::abs(x)),
        b"signum" => float_word(float::signum(x)),
        b"finite" => Words::none().with(u32::from(float::is_finite(x))),
        b"count" => whole(float::cell_count(x)),
        _ => return None,
    })
}

fn of_two(name: &[u8], a: f32, b: u32) -> Option<Words> {
    Some(match name {
        b"max" => float_word(float::max(a, of_bits(b))),
        b"min" => float_word(float::min(a, of_bits(b))),
        b"product" => float_word(subnormal::product(a, of_bits(b))),
        b"quotient" => float_word(subnormal::quotient(a, of_bits(b))),
        b"cell" => whole(float::cell(a, b as usize)),
        _ => return None,
    })
}

fn of_three(name: &[u8], v: Vec3) -> Option<Words> {
    Some(match name {
        b"clamp" => float_word(float::clamp(v.x, v.y, v.z)),
        b"length" => float_word(v.length()),
        b"normalize" => vector_words(v.normalize()),
        b"frame" => {
            let f = vector::frame(v);
            vector_words(f.t).with_vector(f.b)
        }
        _ => return None,
    })
}

fn of_four(name: &[u8], v: Vec3, k: f32) -> Option<Words> {
    Some(match name {
        b"scaled" => vector_words(v.scaled(k)),
        b"over" => vector_words(v.over(k)),
        _ => return None,
    })
}

fn of_six(name: &[u8], a: Vec3, b: Vec3) -> Option<Words> {
    Some(match name {
        b"dot" => float_word(a.dot(b)),
        b"cross" => vector_words(a.cross(b)),
        b"plus" => vector_words(a.plus(b)),
        b"minus" => vector_words(a.minus(b)),
        b"times" => vector_words(a.times(b)),
        _ => return None,
    })
}

fn float_word(x: f32) -> Words {
    Words::none().with_float(x)
}

fn whole(n: usize) -> Words {
    Words::none().with(short(n))
}

fn vector_words(v: Vec3) -> Words {
    Words::none().with_vector(v)
}
