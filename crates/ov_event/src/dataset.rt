//! Datasets as they stand, in bytes.

ghost use Rattle.std.specs.Prelude.{◌≡◌, ◌++◌, OnOk};
ghost use Rattle.ov_event.specs.Spelling.{version, part, dataset, IsVersion, IsPart, IsDataset};
ghost use Rattle.ov_event.specs.Fitting.{VersionFits, PartFits, DatasetFits};
ghost use Rattle.ov_event.specs.Reading.{Gives};
ghost use Rattle.ov_event.specs.Records.{version_at, part_at, dataset_at};

use crate::event::RawSchema;
use crate::field::Field;
use crate::list::{parents_of, write_parents};
use crate::plan::{maybe_plan_of, write_maybe_plan};
use crate::stop::Stop;
use crate::whole::{RawPart, RawVersion, Whole};
use ov_host::Extent;
use ov_items::Items;
use ov_value::Txt;
use std::alloc::{AllocError, Global};

impl Field for RawVersion {
    ghost at = { version_at };

    ghost spelled = { version };

    ghost fits = { VersionFits };

    ghost is = { IsVersion };

    #[tactic(auto, unfolding(crate::specs::Records::version_at))]
    fn read(alloc: Global, bytes: &[u8]) -> Result<(RawVersion, &[u8]), Stop> {
        let (parents, rest) = parents_of(alloc, bytes)?;
        let (message, rest) = Txt::read(alloc, rest)?;
        let (rows, rest) = u32::read(alloc, rest)?;
        let (fresh, rest) = u32::read(alloc, rest)?;
        let (list, rest) = Extent::read(alloc, rest)?;
        let version = RawVersion {
            parents,
            message,
            rows,
            fresh,
            list,
        };
        Ok((version, rest))
    }

    #[tactic(auto, unfolding(crate::specs::Spelling::version))]
    fn write(&self, out: &mut Vec<u8>) -> Result<(), AllocError> {
        write_parents(self.parents.as_slice(), out)?;
        self.message.write(out)?;
        self.rows.write(out)?;
        self.fresh.write(out)?;
        self.list.write(out)
    }
}

impl Field for RawPart {
    ghost at = { part_at };

    ghost spelled = { part };

    ghost fits = { PartFits };

    ghost is = { IsPart };

    #[tactic(auto, unfolding(crate::specs::Records::part_at))]
    fn read(alloc: Global, bytes: &[u8]) -> Result<(RawPart, &[u8]), Stop> {
        let (id, rest) = u32::read(alloc, bytes)?;
        let (versions, rest) = Items::read(alloc, rest)?;
        let (holds, rest) = Items::read(alloc, rest)?;
        let (records, rest) = u32::read(alloc, rest)?;
        let (segments, rest) = Items::read(alloc, rest)?;
        let part = RawPart {
            id,
            versions,
            holds,
            records,
            segments,
        };
        Ok((part, rest))
    }

    #[tactic(auto, unfolding(crate::specs::Spelling::part))]
    fn write(&self, out: &mut Vec<u8>) -> Result<(), AllocError> {
        self.id.write(out)?;
        self.versions.write(out)?;
        self.holds.write(out)?;
        self.records.write(out)?;
        self.segments.write(out)
    }
}

impl Field for Whole {
    ghost at = { dataset_at };

    ghost spelled = { dataset };

    ghost fits = { DatasetFits };

    ghost is = { IsDataset };

    #[tactic(auto, unfolding(crate::specs::Records::dataset_at))]
    fn read(alloc: Global, bytes: &[u8]) -> Result<(Whole, &[u8]), Stop> {
        let (number, rest) = u32::read(alloc, bytes)?;
        let (name, rest) = Txt::read(alloc, rest)?;
        let (schema, rest) = RawSchema::read(alloc, rest)?;
        let (records, rest) = u32::read(alloc, rest)?;
        let (p, rest) = u32::read(alloc, rest)?;
        let (q, rest) = u32::read(alloc, rest)?;
        let (next, rest) = u32::read(alloc, rest)?;
        let (versions, rest) = Items::read(alloc, rest)?;
        let (parts, rest) = Items::read(alloc, rest)?;
        let (plan, rest) = maybe_plan_of(alloc, rest)?;
        let whole = Whole {
            number,
            name,
            schema,
            records,
            p,
            q,
            next,
            versions,
            parts,
            plan,
        };
        Ok((whole, rest))
    }

    #[tactic(auto, unfolding(crate::specs::Spelling::dataset))]
    fn write(&self, out: &mut Vec<u8>) -> Result<(), AllocError> {
        self.number.write(out)?;
        self.name.write(out)?;
        self.schema.write(out)?;
        self.records.write(out)?;
        self.p.write(out)?;
        self.q.write(out)?;
        self.next.write(out)?;
        self.versions.write(out)?;
        self.parts.write(out)?;
        write_maybe_plan(&self.plan, out)?;
        Ok(())
    }
}
