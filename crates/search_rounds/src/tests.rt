//! Tests on small policies.
