//! A user requirement with its mark.

ghost use Rattle.std.specs.Prelude.{◌≡◌};
ghost use Rattle.arbac_laws.specs.NormalForms.{IsNormalNeed};
ghost use Rattle.shared_reqs.specs.Shared.{IsOwnMark};

use crate::hashing::{NOTHING, and_set};
use need_marks::UserMark;
use req_core::UserReq;
use role_order::Order;
use std::marker::Model;

/// A user requirement in normal form, its mark and its hash.
#[derive(Drop)]
pub struct MarkedUser {
    user: UserReq,
    mark: UserMark,
    hash: u64,
}

impl Model for MarkedUser {
    ghost use Rattle.arbac_laws.specs.NormalForms.{IsNormalNeed};
    ghost use Rattle.shared_reqs.specs.Shared.{MarkedNeed};

    ghost Value = { MarkedNeed };

    ghost view = { λ one. record { need = one.user; mark = one.mark } };

    ghost invariant = { λ one. IsNormalNeed one.user };
}

/// A hash of the user requirement.
pub(crate) fn hash_of(user: &UserReq) -> u64 {
    let mut hash = and_set(NOTHING, user.lacks());
    for hit in user.hits() {
        hash = and_set(hash, hit);
    }
    hash
}

impl MarkedUser {
    /// The user requirement with its mark by the role order.
    pub fn new(order: &Order, user: UserReq) -> MarkedUser
        ensures need { result.need ≡ user }
        ensures mark { IsOwnMark order.now result }
    {
        let mark = UserMark::of(order, user.hits(), user.lacks());
        let hash = hash_of(&user);
        MarkedUser { user, mark, hash }
    }

    /// The user requirement.
    pub fn user(&self) -> &UserReq
        ensures need { result.now ≡ self.now.need }
        ensures normal { IsNormalNeed self.now.need }
    {
        &self.user
    }

    /// Its mark.
    pub fn mark(&self) -> &UserMark
        ensures { result.now ≡ self.now.mark }
    {
        &self.mark
    }

    /// Says that the user requirement is in normal form.
    pub(crate) fn is_normal(&self)
        ensures { IsNormalNeed self.now.need }
    {
        let _ = &self.user;
    }

    /// A hash of the user requirement.
    pub fn hash(&self) -> u64 {
        self.hash
    }
}
