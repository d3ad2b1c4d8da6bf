// The stored scene lent to a question: all places of its tables, whatever the counts say. `project`
// and the names that end in `_any` take any floats; the others take coordinates.
use crate::words;
use replay::Words;
use scene::{Ray, marching, opening, shading};
use stored::Stored;
use vector::Vec3;

// The distance at p and the material there.
pub fn dist_mat(s: &Stored, p: Vec3) -> Words {
    words::distance(scene::dist_mat(&s.scene(), p))
}

// The same at any point.
pub fn dist_any(s: &Stored, p: Vec3) -> Words {
    let scene = s.scene();
    words::distance(scene.check(true).map(|()| field::dist_mat(&scene, p)))
}

// The normal at p.
pub fn normal(s: &Stored, p: Vec3) -> Words {
    words::normal(scene::normal(&s.scene(), p))
}

// The same at any point.
pub fn normal_any(s: &Stored, p: Vec3) -> Words {
    let scene = s.scene();
    words::normal(scene.check(true).map(|()| field::normal(&scene, p)))
}

// The point of the surface that any p is moved to.
pub fn project(s: &Stored, p: Vec3, eps: f32, diag: f32) -> Words {
    let scene = s.scene();
    words::projected(
        scene
            .check(true)
            .map(|()| field::project(&scene, p, eps, diag)),
    )
}

// What a ray meets.
pub fn trace(s: &Stored, ray: Ray) -> Words {
    words::traced(scene::trace(&s.scene(), ray))
}

// The same for any ray.
pub fn trace_any(s: &Stored, ray: Ray) -> Words {
    let scene = s.scene();
    words::traced(scene.check(true).map(|()| marching::trace(&scene, ray)))
}

// How much of a light is seen.
pub fn soft_shadow(s: &Stored, ray: Ray, k: f32) -> Words {
    words::shadow(scene::soft_shadow(&s.scene(), ray, k))
}

// The same for any ray.
pub fn shadow_any(s: &Stored, ray: Ray, k: f32) -> Words {
    let scene = s.scene();
    words::shadow(
        scene
            .check(true)
            .map(|()| shading::soft_shadow(&scene, ray, k)),
    )
}

// How open the hemisphere above p is.
pub fn closure(s: &Stored, p: Vec3, n: Vec3, tmax: f32) -> Words {
    words::closure(scene::hemisphere_closure(&s.scene(), p, n, tmax))
}

// The same for any point and normal.
pub fn closure_any(s: &Stored, p: Vec3, n: Vec3, tmax: f32) -> Words {
    let scene = s.scene();
    words::closure(
        scene
            .check(true)
            .map(|()| opening::hemisphere_closure(&scene, p, n, tmax)),
    )
}
