// Sums, products and lengths of vectors.
//
// Kept: a method each and no operators or closures, since document 01 has vectors by value with methods
// that take self.
ghost use Rattle.std.specs.Prelude.{◌≡◌};
ghost use Rattle.vector.specs.Vector.{dot, cross, plus, minus, negated, scaled, times, over};
ghost use Rattle.vector.specs.Vector.{absolutes, greaters, lessers, greatest, length_squared, length_of, normalize, zero_vec};

use crate::Vec3;

impl Vec3 {
    // The vector of three zeros.
    pub fn zero() -> Vec3
        ensures { result ≡ zero_vec }
    {
        Vec3 {
            x: 0.0,
            y: 0.0,
            z: 0.0,
        }
    }

    // The dot product: the products of x, then y, then z, summed left to right.
    #[tactic(auto, unfolding(crate::specs::Vector::dot))]
    pub fn dot(self, o: Vec3) -> f32
        ensures { result ≡ dot self o }
    {
        self.x * o.x + self.y * o.y + self.z * o.z
    }

    // The cross product.
    #[tactic(auto, unfolding(crate::specs::Vector::cross))]
    pub fn cross(self, o: Vec3) -> Vec3
        ensures { result ≡ cross self o }
    {
        Vec3 {
            x: self.y * o.z - o.y * self.z,
            y: self.z * o.x - o.z * self.x,
            z: self.x * o.y - o.x * self.y,
        }
    }

    // The sum, component by component.
    #[tactic(auto, unfolding(crate::specs::Vector::plus))]
    pub fn plus(self, o: Vec3) -> Vec3
        ensures { result ≡ plus self o }
    {
        Vec3 {
            x: self.x + o.x,
            y: self.y + o.y,
            z: self.z + o.z,
        }
    }

    // The difference, component by component.
    #[tactic(auto, unfolding(crate::specs::Vector::minus))]
    pub fn minus(self, o: Vec3) -> Vec3
        ensures { result ≡ minus self o }
    {
        Vec3 {
            x: self.x - o.x,
            y: self.y - o.y,
            z: self.z - o.z,
        }
    }

    // The vector the other way: each sign turned, a zero's too.
    #[tactic(auto, unfolding(crate::specs::Vector::negated))]
    pub fn negated(self) -> Vec3
        ensures { result ≡ negated self }
    {
        Vec3 {
            x: -self.x,
            y: -self.y,
            z: -self.z,
        }
    }

    // Each component times k.
    #[tactic(auto, unfolding(crate::specs::Vector::scaled))]
    pub fn scaled(self, k: f32) -> Vec3
        ensures { result ≡ scaled self k }
    {
        Vec3 {
            x: self.x * k,
            y: self.y * k,
            z: self.z * k,
        }
    }

    // Each component times the other vector's.
    #[tactic(auto, unfolding(crate::specs::Vector::times))]
    pub fn times(self, o: Vec3) -> Vec3
        ensures { result ≡ times self o }
    {
        Vec3 {
            x: self.x * o.x,
            y: self.y * o.y,
            z: self.z * o.z,
        }
    }

    // Each component divided by k: a division each, and no product with 1 / k.
    #[tactic(auto, unfolding(crate::specs::Vector::over))]
    pub fn over(self, k: f32) -> Vec3
        ensures { result ≡ over self k }
    {
        Vec3 {
            x: self.x / k,
            y: self.y / k,
            z: self.z / k,
        }
    }

    // Each component without its sign.
    #[tactic(auto, unfolding(crate::specs::Vector::absolutes))]
    pub fn abs(self) -> Vec3
        ensures { result ≡ absolutes self }
    {
        Vec3 {
            x: float::abs(self.x),
            y: float::abs(self.y),
            z: float::abs(self.z),
        }
    }

    // The greater of each two components; a NaN is passed over.
    #[tactic(auto, unfolding(crate::specs::Vector::greaters))]
    pub fn max(self, o: Vec3) -> Vec3
        ensures { result ≡ greaters self o }
    {
        Vec3 {
            x: float::max(self.x, o.x),
            y: float::max(self.y, o.y),
            z: float::max(self.z, o.z),
        }
    }

    // The lesser of each two components; a NaN is passed over.
    #[tactic(auto, unfolding(crate::specs::Vector::lessers))]
    pub fn min(self, o: Vec3) -> Vec3
        ensures { result ≡ lessers self o }
    {
        Vec3 {
            x: float::min(self.x, o.x),
            y: float::min(self.y, o.y),
            z: float::min(self.z, o.z),
        }
    }

    // The greatest component; a NaN is passed over.
    #[tactic(auto, unfolding(crate::specs::Vector::greatest))]
    pub fn max_element(self) -> f32
        ensures { result ≡ greatest self }
    {
        float::max(float::max(self.x, self.y), self.z)
    }

    // The dot product with itself.
    #[tactic(auto, unfolding(crate::specs::Vector::length_squared))]
    pub fn length_squared(self) -> f32
        ensures { result ≡ length_squared self }
    {
        self.dot(self)
    }

    // The root of the dot product with itself.
    #[tactic(auto, unfolding(crate::specs::Vector::length_of))]
    pub fn length(self) -> f32
        ensures { result ≡ length_of self }
    {
        float::sqrt(self.length_squared())
    }

    // The vector times one over its length.
    #[tactic(auto, unfolding(crate::specs::Vector::normalize))]
    pub fn normalize(self) -> Vec3
        ensures { result ≡ normalize self }
    {
        self.scaled(1.0 / self.length())
    }
}
