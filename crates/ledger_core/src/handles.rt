use bucket_math::Bounds;

/// A counter: names a slot of the registry whose id it carries.
#[repr(C)]
#[derive(Clone, Copy, Debug, PartialEq, Eq)]
pub struct Counter {
    pub registry: u64,
    pub slot: usize,
}

/// A histogram: names a slot of the registry whose id it carries, and has the bounds by which a value's bucket is found.
#[repr(C)]
#[derive(Clone, Copy, Debug, PartialEq, Eq)]
pub struct Histogram {
    pub registry: u64,
    pub slot: usize,
    pub bounds: Bounds,
}

/// A gauge: names a slot of the registry whose id it carries.
#[repr(C)]
#[derive(Clone, Copy, Debug, PartialEq, Eq)]
pub struct Gauge {
    pub registry: u64,
    pub slot: usize,
}
