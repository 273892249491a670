//! Families and children are asked for by plain texts.
ghost use Rattle.std.specs.Prelude.{◌≡◌, ◌≤◌, Result, IfErr, IfOk, OnOk};
ghost use Rattle.registry_state.specs.declared.handle.Handle.{Handle};
ghost use Rattle.dirgwako.specs.Registering.{AreGood, AsksFamily, AsksHandle, IsUnread, family_of, shifted_family_of};
ghost use Rattle.dirgwako.specs.Registering.{kind_of, bounds_of};
ghost use Rattle.dirgwako.specs.Refused.{TellsName};
ghost use Rattle.dirgwako.specs.Texts.{texts_of};

use crate::family::Shape;
use crate::fault::{ChildRefusal, FamilyRefusal};
use crate::refused::Refused;
use crate::registers::Registers;
use crate::texts::{read_labels, read_values};
use metric_desc::Desc;
use metric_names::{HelpText, LabelName, MetricName};
use registry_state::{FamilyId, Handle};
use std::alloc::Global;

/// A name, a help and label names, read.
#[derive(Drop)]
struct Texts {
    name: MetricName,
    help: HelpText,
    labels: Vec<LabelName>,
}

/// Reads the name, the help and the labels, in this order. The shape and the digits are what its clauses say them of.
fn read_texts(
    alloc: Global,
    shape: Shape<'_>,
    name: &str,
    help: &str,
    labels: &[&str],
    digits: u8,
) -> Result<Texts, FamilyRefusal>
    ensures name { IfOk result (λ read. read.name ≡ name.now) }
    ensures help { IfOk result (λ read. read.help ≡ help.now) }
    ensures labels { IfOk result (λ read. read.labels.items ≡ texts_of labels.now) }
    ensures good { OnOk result
        (AreGood (shifted_family_of (kind_of shape.entry) name.now help.now labels.now (bounds_of shape.entry) digits)) }
    ensures fault { IfErr result
        (IsUnread (shifted_family_of (kind_of shape.entry) name.now help.now labels.now (bounds_of shape.entry) digits)) }
{
    let name = MetricName::read(alloc, name).map_err(FamilyRefusal::Name)?;
    let help = HelpText::read(alloc, help).map_err(FamilyRefusal::Help)?;
    match read_labels(alloc, labels) {
        Ok(labels) => Ok(Texts { name, help, labels }),
        Err(bad) => Err(FamilyRefusal::Label {
            at: bad.at,
            fault: bad.fault,
        }),
    }
}

/// The descriptor of these texts, before its family's numbers are shifted by so many digits.
fn describe(
    alloc: Global,
    shape: Shape<'_>,
    name: &str,
    help: &str,
    labels: &[&str],
    digits: u8,
) -> Result<Desc, FamilyRefusal>
    ensures made { IfOk result (λ desc. desc ≡ family_of (kind_of shape.entry) name.now help.now labels.now
        (bounds_of shape.entry)) }
    ensures good { OnOk result
        (AreGood (shifted_family_of (kind_of shape.entry) name.now help.now labels.now (bounds_of shape.entry) digits)) }
    ensures fault { IfErr result
        (IsUnread (shifted_family_of (kind_of shape.entry) name.now help.now labels.now (bounds_of shape.entry) digits)) }
{
    let Texts { name, help, labels } = read_texts(alloc, shape, name, help, labels, digits)?;
    match shape {
        Shape::Counter => Desc::counter(name, help, labels).map_err(FamilyRefusal::Labels),
        Shape::Gauge => Desc::gauge(name, help, labels).map_err(FamilyRefusal::Labels),
        Shape::Histogram(bounds) => {
            Desc::histogram(name, help, labels, bounds).map_err(FamilyRefusal::Histogram)
        }
    }
}

/// The descriptor of these texts, whose family's numbers are shifted by so many digits.
fn describe_shifted(
    alloc: Global,
    shape: Shape<'_>,
    name: &str,
    help: &str,
    labels: &[&str],
    digits: u8,
) -> Result<Desc, FamilyRefusal>
    ensures made { IfOk result (λ desc. desc ≡ shifted_family_of (kind_of shape.entry) name.now help.now labels.now
        (bounds_of shape.entry) digits) }
    ensures good { OnOk result
        (AreGood (shifted_family_of (kind_of shape.entry) name.now help.now labels.now (bounds_of shape.entry) digits)) }
    ensures few { IfOk result (λ _. digits ≤ 9) }
    ensures fault { IfErr result
        (IsUnread (shifted_family_of (kind_of shape.entry) name.now help.now labels.now (bounds_of shape.entry) digits)) }
{
    let desc = describe(alloc, shape, name, help, labels, digits)?;
    let _ = desc.labels();
    desc.with_digits(digits).map_err(FamilyRefusal::Digits)
}

/// Registers a family by plain texts.
pub(crate) fn ask_family<S: Registers>(
    at: &mut S,
    alloc: Global,
    shape: Shape<'_>,
    name: &str,
    help: &str,
    labels: &[&str],
    digits: u8,
) -> Result<FamilyId, Refused<FamilyRefusal>>
    ensures made { IfOk result (λ id. AsksFamily S.registered at.old at.new
        (shifted_family_of (kind_of shape.entry) name.now help.now labels.now (bounds_of shape.entry) digits) (Result.Ok id)) }
    ensures few { IfOk result (λ _. digits ≤ 9) }
    ensures fault { IfErr result (λ refused. AsksFamily S.registered at.old at.new
        (shifted_family_of (kind_of shape.entry) name.now help.now labels.now (bounds_of shape.entry) digits) (Result.Err
        refused.fault)) }
    ensures named { IfErr result (λ refused. TellsName name.now refused.name.bytes) }
{
    match describe_shifted(alloc, shape, name, help, labels, digits) {
        Ok(desc) => match at.register(desc) {
            Ok(id) => Ok(id),
            Err(fault) => Err(Refused::of(name, FamilyRefusal::Register(fault))),
        },
        Err(fault) => Err(Refused::of(name, fault)),
    }
}

/// The handle of a child by plain texts, of a family of the registry of this id.
pub(crate) fn ask_handle<S: Registers>(
    at: &mut S,
    alloc: Global,
    registry: u64,
    family: FamilyId,
    values: &[&str],
) -> Result<Handle, ChildRefusal>
    ensures { AsksHandle S.id_in S.gave at.old at.new registry family (texts_of values.now) result }
{
    if registry != at.id() {
        return Err(ChildRefusal::OtherRegistry);
    }
    match read_values(alloc, values) {
        Ok(read) => at.child(family, &read).map_err(ChildRefusal::Child),
        Err(bad) => Err(ChildRefusal::Value {
            at: bad.at,
            fault: bad.fault,
        }),
    }
}
